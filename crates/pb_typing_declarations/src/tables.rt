//! Look-up tables of what a text declares, and the check of its declarations by them.

ghost use Rattle.std.specs.Prelude.{◌≡◌, ◌+◌, ◌≤◌, nat_le, [], None, map, flat_map, Contains};
ghost use Rattle.std.specs.Prelude.{MatchResult, IfOk};
ghost use Rattle.pb_base_values.specs.Carrier.{tuple_count};
ghost use Rattle.pb_sorts.specs.Carrier.{values_of};
ghost use Rattle.pb_sorts.specs.Counting.{instance_limit};
ghost use Rattle.pb_sorts.specs.Layout.{lists_of};
ghost use Rattle.pb_sorts.specs.declared.counting.TheConstants.{MAX_NUMBERS};
ghost use Rattle.pb_text_tree.specs.Form.{spec_form, sort_declaration_form, range_form};
ghost use Rattle.pb_text_tree.specs.Form.{equation_form, named};
ghost use Rattle.pb_text_meaning.specs.Erase.{erase};
ghost use Rattle.pb_typing_declarations.specs.Faults.{unless, repeated, IsAmong};
ghost use Rattle.pb_typing_declarations.specs.Shapes.{end_of, base_of, is_sort};
ghost use Rattle.pb_typing_declarations.specs.Enumerators.{enumerator_of, recogniser_of};
ghost use Rattle.pb_typing_declarations.specs.Tables.{entry_names};
ghost use Rattle.pb_typing_declarations.specs.Entries.{end_shown, as_enumerator, as_recogniser};
ghost use Rattle.pb_typing_declarations.specs.Entries.{definition_in, range_in};
ghost use Rattle.pb_typing_declarations.specs.Chains.{AreChains};
ghost use Rattle.pb_typing_declarations.specs.Variables.{variables_of};
ghost use Rattle.pb_typing_declarations.specs.Agreement.{AreTables, equation_place};
ghost use Rattle.pb_typing_declarations.specs.Reading.{AreEquations, IsCarrier, HasVariables};
ghost use Rattle.pb_typing_declarations.specs.Reading.{HasParameters, AddsInstances, HasCarriers};
ghost use Rattle.pb_typing_declarations.specs.Reading.{IsEquationTable};
ghost use Rattle.pb_typing_declarations.specs.WellDeclared.{HaveEnds};
ghost use Rattle.pb_typing_declarations.specs.Declarations.{tables_faults, checks_faults};
ghost use Rattle.pb_typing_declarations.specs.Declarations.{sort_faults, range_faults};
ghost use Rattle.pb_typing_declarations.specs.Declarations.{limit_faults, use_faults};
ghost use Rattle.pb_typing_declarations.specs.Declarations.{equation_names};
ghost use Rattle.pb_typing_declarations.specs.Declarations.{variables_faults, equation_faults};
ghost use Rattle.pb_typing_declarations.specs.Declarations.{equations_faults_behind};

use crate::chain::{End, is_built_in};
use crate::definition::{DataName, Definition, DefinitionTables, definition_tables, is_short};
use crate::ends::{Chain, Chains, all_chains, chain_end};
use crate::entry::Entry;
use crate::fault::{TypeError, TypingFault, TypingRule, require};
use crate::range::range_table;
use crate::table::table;
use crate::variables::variable_entries;
use pb_base::{MAX_EQUATIONS, MAX_PARAMETERS};
use pb_sorts::{Carrier, Counting, Range, count_tuples};
use pb_text_tree::{Equation, Name, Place, Sort, SortDeclaration, Spec};
use std::alloc::{AllocError, Global};
use std::collections::HashMap;

/// What a text declares, by name.
#[derive(Drop)]
pub(crate) struct Tables<'a> {
    pub spec: &'a Spec,
    pub definitions: HashMap<&'a str, Definition<'a>>,
    pub ranges: HashMap<&'a str, Range>,
    pub names: HashMap<&'a str, DataName>,
    pub equations: HashMap<&'a str, usize>,
    /// The chains of aliases, and those of the sorts without any ranges.
    pub chains: HashMap<&'a str, Chain>,
    pub bases: HashMap<&'a str, Chain>,
    pub ghost agrees: { AreTables (erase (spec_form spec.now)) definitions ranges names equations },
    pub ghost chained: { AreChains (range_in ranges) (definition_in definitions) chains },
    pub ghost based: { AreChains (λ s. None) (definition_in definitions) bases },
}

impl<'a> Tables<'a> {
    /// The tables of a text, if no name is declared twice, structs are within their limits and no
    /// range is empty.
    pub fn read(alloc: Global, spec: &'a Spec) -> Result<Tables<'a>, TypeError>
        ensures { MatchResult result
            (λ tables. (tables.spec.now ≡ spec.now) × (tables_faults (spec_form spec.now) ≡ []))
            (IsAmong (tables_faults (spec_form spec.now))) }
    {
        let DefinitionTables {
            sorts: definitions,
            names,
        } = definition_tables(alloc, &spec.sorts)?;
        let ranges = range_table(alloc, &spec.ranges)?;
        let equations = equation_table(alloc, &spec.equations)?;
        let Chains { chains, bases } = all_chains(alloc, &definitions, &ranges, &spec.sorts)?;
        Ok(Tables {
            spec,
            definitions,
            ranges,
            names,
            equations,
            chains,
            bases,
        })
    }

    /// What stands at the end of a sort's chain of aliases.
    pub fn end(&self, sort: &str) -> End
        ensures { end_shown result ≡ end_of (erase (spec_form self.now.spec.now)) sort.now }
    {
        let limit = self.spec.sorts.len();
        chain_end(&self.definitions, &self.ranges, &self.chains, limit, sort)
    }

    /// The same without any ranges: the built-in sort or the struct behind the aliases.
    fn base(&self, alloc: Global, sort: &str) -> End
        ensures { end_shown result ≡ base_of (erase (spec_form self.now.spec.now)) sort.now }
    {
        let ranges = HashMap::new(alloc);
        let limit = self.spec.sorts.len();
        chain_end(&self.definitions, &ranges, &self.bases, limit, sort)
    }

    /// What a name in data is declared to be.
    pub fn data_name(&self, name: &str) -> Option<DataName>
        ensures enumerators { as_enumerator result
            ≡ enumerator_of (erase (spec_form self.now.spec.now)) name.now }
        ensures recognisers { as_recogniser result
            ≡ recogniser_of (erase (spec_form self.now.spec.now)) name.now }
    {
        self.names.get(name).copied()
    }

    /// The place of the equation with this name.
    pub fn equation(&self, name: &str) -> Option<usize>
        ensures { result ≡ equation_place (erase (spec_form self.now.spec.now)) name.now }
    {
        self.equations.get(name).copied()
    }

    /// Checks sorts, ranges and predicate variables, and hands out the carriers of each equation's
    /// parameters.
    pub fn check(&self, alloc: Global, counting: Counting) -> Result<Vec<Vec<Carrier>>, TypeError>
        ensures { MatchResult result
            (λ carriers. (checks_faults (instance_limit counting)
            (spec_form self.now.spec.now) ≡ [])
            × HasCarriers (instance_limit counting) (erase (spec_form self.now.spec.now)) 0
            (spec_form self.now.spec.now).equations (lists_of carriers.items))
            (IsAmong (checks_faults (instance_limit counting) (spec_form self.now.spec.now))) }
    {
        self.check_sorts(alloc, &self.spec.sorts)?;
        self.check_ranges(alloc, &self.spec.ranges)?;
        check_equation_count(&self.spec.equations)?;
        self.carriers(alloc, &self.spec.equations, counting.limit())
    }

    fn check_sorts(&self, alloc: Global, sorts: &[SortDeclaration]) -> Result<(), TypingFault>
        ensures { MatchResult result
            (λ _. flat_map (sort_faults (erase (spec_form self.now.spec.now)))
            (map sort_declaration_form sorts.now) ≡ [])
            (Contains (flat_map (sort_faults (erase (spec_form self.now.spec.now)))
            (map sort_declaration_form sorts.now))) }
    {
        for declaration in sorts {
            self.check_sort(alloc, declaration)?;
        }
        Ok(())
    }

    /// A sort isn't a built-in one (T02); an alias's target is a sort, and its chain has an end
    /// (T03).
    fn check_sort(&self, alloc: Global, declaration: &SortDeclaration) -> Result<(), TypingFault>
        ensures { MatchResult result
            (λ _. sort_faults (erase (spec_form self.now.spec.now))
            (sort_declaration_form declaration.now) ≡ [])
            (Contains (sort_faults (erase (spec_form self.now.spec.now))
            (sort_declaration_form declaration.now))) }
    {
        let name = &declaration.name;
        require(!is_built_in(&name.text), TypingRule::NameTwice, name.place)?;
        match &declaration.sort {
            Sort::Struct(_) => Ok(()),
            Sort::Alias(target) => {
                require(
                    self.is_sort(&target.text),
                    TypingRule::UnknownSort,
                    target.place,
                )?;
                let has_end = !self.base(alloc, &name.text).is_endless();
                require(has_end, TypingRule::UnknownSort, name.place)
            }
        }
    }

    fn is_sort(&self, name: &str) -> bool
        ensures { result ≡ is_sort (erase (spec_form self.now.spec.now)) name.now }
    {
        is_built_in(name) || self.definitions.contains_key(name)
    }

    fn check_ranges(&self, alloc: Global, ranges: &[pb_text_tree::Range]) -> Result<(), TypingFault>
        requires { HaveEnds (erase (spec_form self.now.spec.now)) }
        ensures { MatchResult result
            (λ _. flat_map (range_faults (erase (spec_form self.now.spec.now)))
            (map range_form ranges.now) ≡ [])
            (Contains (flat_map (range_faults (erase (spec_form self.now.spec.now)))
            (map range_form ranges.now))) }
    {
        for range in ranges {
            self.check_range(alloc, range)?;
        }
        Ok(())
    }

    /// A range is that of an integer sort (T03), and doesn't begin below the sort's least value
    /// (T05).
    fn check_range(&self, alloc: Global, range: &pb_text_tree::Range) -> Result<(), TypingFault>
        requires { HaveEnds (erase (spec_form self.now.spec.now)) }
        ensures { MatchResult result
            (λ _. range_faults (erase (spec_form self.now.spec.now)) (range_form range.now) ≡ [])
            (Contains (range_faults (erase (spec_form self.now.spec.now)) (range_form range.now))) }
    {
        let base = self.base(alloc, &range.name);
        require(base.is_integer(), TypingRule::UnknownSort, range.place)?;
        require(
            base.may_begin_at(range.low),
            TypingRule::MissingRange,
            range.place,
        )
    }

    /// The carriers of each equation's parameters, if its predicate variable is as it must be and
    /// there are few enough instances.
    fn carriers(
        &self,
        alloc: Global,
        equations: &[Equation],
        limit: u64,
    ) -> Result<Vec<Vec<Carrier>>, TypeError>
        requires ends { HaveEnds (erase (spec_form self.now.spec.now)) }
        requires limit { limit ≤ MAX_NUMBERS }
        ensures { MatchResult result
            (λ carriers. HasCarriers limit (erase (spec_form self.now.spec.now)) 0
            (map equation_form equations.now) (lists_of carriers.items))
            (IsAmong (equations_faults_behind limit (erase (spec_form self.now.spec.now)) 0
            (map equation_form equations.now))) }
    {
        let mut carriers = Vec::new(alloc);
        let mut count = 0;
        for equation in equations {
            let parameters = self.parameters(alloc, equation)?;
            count = add_instances(limit, count, &parameters, equation.name.place)?;
            carriers.push(parameters)?;
        }
        Ok(carriers)
    }

    /// The carriers of an equation's parameters, if its predicate variable is as it must be.
    fn parameters(&self, alloc: Global, equation: &Equation) -> Result<Vec<Carrier>, TypeError>
        requires { HaveEnds (erase (spec_form self.now.spec.now)) }
        ensures { MatchResult result
            (λ carriers. HasParameters (erase (spec_form self.now.spec.now))
            (equation_form equation.now) carriers.items)
            (IsAmong (equation_faults (erase (spec_form self.now.spec.now))
            (equation_form equation.now))) }
    {
        let name = &equation.name;
        require(is_short(name), TypingRule::Limit, name.place)?;
        let variables = variable_entries(alloc, &equation.parameters)?;
        check_limit(&variables, MAX_PARAMETERS)?;
        self.variable_carriers(alloc, &variables)
    }

    /// The carriers of one list of variables, if no name stands twice in it and each sort has
    /// values.
    pub fn variable_carriers(
        &self,
        alloc: Global,
        variables: &[Entry<'_, &'_ Name>],
    ) -> Result<Vec<Carrier>, TypeError>
        requires { HaveEnds (erase (spec_form self.now.spec.now)) }
        ensures { MatchResult result
            (λ carriers. HasVariables (erase (spec_form self.now.spec.now))
            (variables_of variables.now) carriers.items)
            (IsAmong (variables_faults (erase (spec_form self.now.spec.now))
            (variables_of variables.now))) }
    {
        table(alloc, variables)?;
        let mut carriers = Vec::new(alloc);
        for variable in variables {
            let carrier = self.variable_carrier(variable.value)?;
            carriers.push(carrier)?;
        }
        Ok(carriers)
    }

    /// The carrier of a variable's sort, which is there (T03) and has a range if it has to (T05).
    fn variable_carrier(&self, sort: &Name) -> Result<Carrier, TypingFault>
        requires { HaveEnds (erase (spec_form self.now.spec.now)) }
        ensures { MatchResult result
            (λ carrier. IsCarrier (erase (spec_form self.now.spec.now)) (named sort.now) carrier)
            (Contains (use_faults (erase (spec_form self.now.spec.now)) (named sort.now))) }
    {
        let rule = match self.end(&sort.text) {
            End::Carrier(carrier) => return Ok(carrier),
            End::Unranged(_) => TypingRule::MissingRange,
            End::Undeclared | End::Endless => TypingRule::UnknownSort,
        };
        Err(TypingFault {
            rule,
            place: sort.place,
        })
    }
}

/// So many instances and those of one more predicate variable, if they are within the limit (T12).
fn add_instances(
    limit: u64,
    count: u64,
    parameters: &[Carrier],
    place: Place,
) -> Result<u64, TypingFault>
    requires limit { limit ≤ MAX_NUMBERS }
    requires few { count ≤ limit }
    ensures { MatchResult result
        (λ sum. AddsInstances limit count (map values_of parameters.now) place sum)
        (Contains (unless (nat_le (count + tuple_count
        (map values_of parameters.now)) limit) TypingRule.Limit place)) }
{
    match count_tuples(parameters) {
        Some(size) if count + size <= limit => Ok(count + size),
        _ => Err(TypingFault {
            rule: TypingRule::Limit,
            place,
        }),
    }
}

/// The places of equations by their names, if no name stands twice.
fn equation_table(
    alloc: Global,
    equations: &[Equation],
) -> Result<HashMap<&'_ str, usize>, TypeError>
    ensures { MatchResult result
        (λ table. IsEquationTable (map equation_form equations.now) table)
        (IsAmong (repeated (equation_names (map equation_form equations.now)))) }
{
    let entries = equation_entries(alloc, equations)?;
    table(alloc, &entries)
}

/// The predicate variables, each with the place of its equation.
fn equation_entries(
    alloc: Global,
    equations: &[Equation],
) -> Result<Vec<Entry<'_, usize>>, AllocError>
    ensures { IfOk result (λ entries. AreEquations
        (map equation_form equations.now) entries.items) }
{
    let mut entries = Vec::new(alloc);
    for (index, equation) in equations.iter().enumerate() {
        entries.push(Entry {
            name: &equation.name.text,
            place: equation.name.place,
            value: index,
        })?;
    }
    Ok(entries)
}

/// Whether there are at most so many equations as a text may have; the fault (T12) stands at the
/// name of the one that passes the limit.
fn check_equation_count(equations: &[Equation]) -> Result<(), TypingFault>
    ensures { MatchResult result
        (λ _. limit_faults MAX_EQUATIONS (equation_names (map equation_form equations.now)) ≡ [])
        (Contains (limit_faults MAX_EQUATIONS
        (equation_names (map equation_form equations.now)))) }
{
    match equations.get(MAX_EQUATIONS) {
        None => Ok(()),
        Some(equation) => Err(TypingFault {
            rule: TypingRule::Limit,
            place: equation.name.place,
        }),
    }
}

/// Whether there are at most so many; the fault (T12) stands at the one that passes the limit.
fn check_limit<V: Copy>(entries: &[Entry<'_, V>], limit: usize) -> Result<(), TypingFault>
    ensures { MatchResult result
        (λ _. limit_faults limit (entry_names entries.now) ≡ [])
        (Contains (limit_faults limit (entry_names entries.now))) }
{
    match entries.get(limit) {
        None => Ok(()),
        Some(entry) => Err(TypingFault {
            rule: TypingRule::Limit,
            place: entry.place,
        }),
    }
}
