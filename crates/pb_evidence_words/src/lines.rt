//! The lines of evidence: where an instance's line stands, and which line each comes from. Both are
//! looked up in tables, so that writing all lines takes time linear in what they say.

ghost use Rattle.std.specs.Prelude.{◌≡◌, ◌≢◌, ◌<◌, ◌≤◌, ℕ, IfOk, if◌then◌else◌, length, nat_eq};
ghost use Rattle.std.specs.Prelude.{slice_index, unwrap_or};
ghost use Rattle.std.specs.HashMap.{get};
ghost use Rattle.pb_evidence.specs.Evidence.{graph_of};
ghost use Rattle.pb_evidence_words.specs.Lines.{AreLinesOf, ArePlaces, HasLines};
ghost use Rattle.pb_evidence_words.specs.Order.{parent_at, rests_on_one, run_start, sole_parent_at};

use pb_evidence::Evidence;
use std::alloc::{AllocError, Global};
use std::collections::HashMap;

/// For each instance the place of its line, and for each line the first and the last line that rest
/// on its instance, and where the longest run of lines that ends with it begins, on which each
/// rests on the next one alone.
#[derive(Drop)]
pub(crate) struct Lines {
    pub places: HashMap<u64, usize>,
    pub parents: Vec<usize>,
    pub lasts: Vec<usize>,
    pub starts: Vec<usize>,
}

/// The place of each number.
fn places_of(alloc: Global, numbers: &[u64]) -> Result<HashMap<u64, usize>, AllocError>
    requires { (i j : ℕ) → i < j → j < length numbers.now
        → slice_index numbers.now i ≢ slice_index numbers.now j }
    ensures { IfOk result (λ places. ArePlaces numbers.now places) }
{
    let mut places = HashMap::new(alloc);
    for k in 0..numbers.len() {
        places.insert(numbers[k], k)?;
    }
    Ok(places)
}

/// The place of a number, or 0 of one that has none.
pub(crate) fn place_in(places: &HashMap<u64, usize>, number: u64) -> usize
    ensures { result ≡ unwrap_or (get nat_eq places.now number) 0 }
{
    places.get(&number).copied().unwrap_or(0)
}

/// Whether a line rests on one instance alone, and on no cut call.
pub(crate) fn rests_on_one(evidence: &Evidence, cuts: &[bool], line: usize) -> bool
    requires lines { HasLines evidence.now }
    requires line { line < length evidence.now.instances.items }
    ensures { result ≡ rests_on_one (graph_of evidence.now) cuts.now line }
{
    let is_cut = match cuts.get(line) {
        Some(cut) => *cut,
        None => false,
    };
    !is_cut && evidence.dependencies(line).len() == 1
}

/// Evidence, with the place of each instance's line.
#[derive(Clone, Copy)]
struct IndexedEvidence<'e> {
    evidence: &'e Evidence,
    places: &'e HashMap<u64, usize>,
    ghost lines: { HasLines evidence.now },
    ghost placed: { ArePlaces evidence.now.instances.items places.now },
}

impl IndexedEvidence<'_> {
    ghost use Rattle.pb_game.specs.Adjacency.{is_among, row};
    ghost use Rattle.pb_evidence_words.specs.Order.{last_caller_at};

    /// Lets the lines of all instances that a line rests on come from that line.
    fn take_children(&self, line: usize, parents: &mut [usize])
        requires line { line < length self.now.evidence.now.instances.items }
        requires sized { length parents.old ≡ length self.now.evidence.now.instances.items }
        ensures { (k : ℕ) → k < length self.now.evidence.now.instances.items
            → slice_index parents.new k
            ≡ (if is_among (row self.now.evidence.now.places.items
            self.now.evidence.now.dependencies.items line)
            (slice_index self.now.evidence.now.instances.items k)
            then line else slice_index parents.old k) }
    {
        for child in self.evidence.dependencies(line) {
            let place = place_in(self.places, *child);
            parents[place] = line;
        }
    }

    /// The line that each line comes from. The lines are gone through from the last to the first,
    /// so that the first one that rests on an instance is left as the one that its line comes from.
    fn parents(&self, alloc: Global) -> Result<Vec<usize>, AllocError>
        ensures sized { IfOk result (λ parents. length parents.items
            ≡ length self.now.evidence.now.instances.items) }
        ensures parents { IfOk result (λ parents.
            (k : ℕ) → k < length self.now.evidence.now.instances.items
            → slice_index parents.items k ≡ parent_at (graph_of self.now.evidence.now) k) }
    {
        let count = self.evidence.instances.len();
        let mut parents = vec![in alloc; count; count]?;
        let mut line = count;
        while line > 0 {
            line -= 1;
            self.take_children(line, &mut parents);
        }
        Ok(parents)
    }

    /// The last line that rests on the instance of each line.
    fn lasts(&self, alloc: Global) -> Result<Vec<usize>, AllocError>
        ensures sized { IfOk result (λ lasts. length lasts.items
            ≡ length self.now.evidence.now.instances.items) }
        ensures lasts { IfOk result (λ lasts.
            (k : ℕ) → k < length self.now.evidence.now.instances.items
            → slice_index lasts.items k ≡ last_caller_at (graph_of self.now.evidence.now) k) }
    {
        let count = self.evidence.instances.len();
        let mut lasts = vec![in alloc; count; count]?;
        for line in 0..count {
            self.take_children(line, &mut lasts);
        }
        Ok(lasts)
    }
}

/// A line where it rests on one instance alone, else no line's place.
fn if_sole(evidence: &Evidence, cuts: &[bool], parent: usize) -> usize
    requires lines { HasLines evidence.now }
    requires parent { parent ≤ length evidence.now.instances.items }
    ensures { result ≡ (if rests_on_one (graph_of evidence.now) cuts.now parent then parent
        else length evidence.now.instances.items) }
{
    let count = evidence.instances.len();
    if parent < count && rests_on_one(evidence, cuts, parent) {
        parent
    } else {
        count
    }
}

/// The line that another one comes from, where that rests on it alone, else no line's place.
fn sole_parent(evidence: &Evidence, cuts: &[bool], parents: &[usize], line: usize) -> usize
    requires lines { HasLines evidence.now }
    requires line { line < length evidence.now.instances.items }
    requires sized { length parents.now ≡ length evidence.now.instances.items }
    requires parents { (k : ℕ) → k < length evidence.now.instances.items
        → slice_index parents.now k ≡ parent_at (graph_of evidence.now) k }
    ensures { result ≡ sole_parent_at (graph_of evidence.now) cuts.now line }
{
    if_sole(evidence, cuts, parents[line])
}

/// Of each line the one that it comes from, where that rests on it alone.
fn sole_parents(
    alloc: Global,
    evidence: &Evidence,
    cuts: &[bool],
    parents: &[usize],
) -> Result<Vec<usize>, AllocError>
    requires lines { HasLines evidence.now }
    requires sized { length parents.now ≡ length evidence.now.instances.items }
    requires parents { (k : ℕ) → k < length evidence.now.instances.items
        → slice_index parents.now k ≡ parent_at (graph_of evidence.now) k }
    ensures sized { IfOk result (λ sole. length sole.items
        ≡ length evidence.now.instances.items) }
    ensures sole { IfOk result (λ sole. (k : ℕ) → k < length evidence.now.instances.items
        → slice_index sole.items k ≡ sole_parent_at (graph_of evidence.now) cuts.now k) }
{
    let mut sole = Vec::with_capacity(alloc, parents.len())?;
    for line in 0..parents.len() {
        let parent = sole_parent(evidence, cuts, parents, line);
        sole.push(parent)?;
    }
    Ok(sole)
}

/// Where the longest run that ends with a line begins, those of the lines before being known.
fn start_of(parents: &[usize], starts: &[usize], line: usize) -> usize
    requires line { line < length parents.now }
    requires known { length starts.now ≡ line }
    requires starts { (k : ℕ) → k < line
        → slice_index starts.now k ≡ run_start (slice_index parents.now) k }
    ensures { result ≡ run_start (slice_index parents.now) line }
{
    if line > 0 && parents[line] == line - 1 {
        starts[line - 1]
    } else {
        line
    }
}

/// Where the longest run that ends with each line begins.
fn starts_of(alloc: Global, parents: &[usize]) -> Result<Vec<usize>, AllocError>
    ensures sized { IfOk result (λ starts. length starts.items ≡ length parents.now) }
    ensures starts { IfOk result (λ starts. (k : ℕ) → k < length parents.now
        → slice_index starts.items k ≡ run_start (slice_index parents.now) k) }
{
    let mut starts = Vec::with_capacity(alloc, parents.len())?;
    for line in 0..parents.len() {
        let start = start_of(parents, &starts, line);
        starts.push(start)?;
    }
    Ok(starts)
}

impl Lines {
    /// The lines of evidence, of which these rest on a cut call.
    pub(crate) fn new(
        alloc: Global,
        evidence: &Evidence,
        cuts: &[bool],
    ) -> Result<Lines, AllocError>
        requires { HasLines evidence.now }
        ensures { IfOk result (λ lines. AreLinesOf (graph_of evidence.now) cuts.now lines) }
    {
        let places = places_of(alloc, &evidence.instances)?;
        let indexed = IndexedEvidence {
            evidence,
            places: &places,
        };
        let parents = indexed.parents(alloc)?;
        let lasts = indexed.lasts(alloc)?;
        let sole = sole_parents(alloc, evidence, cuts, &parents)?;
        let starts = starts_of(alloc, &sole)?;
        Ok(Lines {
            places,
            parents,
            lasts,
            starts,
        })
    }
}
