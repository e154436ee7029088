//! The numbers of instances. All instances stand in one list: equations in order, the last
//! parameter fastest; an instance's number is its place there.
ghost use Rattle.std.specs.Prelude.{◌≡◌, ◌≤◌, ◌<◌, ◌↔◌, All, List, Err, IfOk, IfSome, IsSome};
ghost use Rattle.std.specs.Prelude.{IsTrue, Some, length, vec_len};
ghost use Rattle.std.specs.List.{slice_get};
ghost use Rattle.pb_sorts.specs.declared.carrier.Carrier.{Carrier};
ghost use Rattle.pb_sorts.specs.declared.counting.Counting.TheVariants.{Declared};
ghost use Rattle.pb_sorts.specs.Counting.{instance_limit};
ghost use Rattle.pb_sorts.specs.Instance.{first_of, size_of, instances, instance_of, is_instance};
ghost use Rattle.pb_sorts.specs.Instance.{owns_number};
ghost use Rattle.pb_sorts.specs.Layout.{IsNumbered, IsWithinLimits, carriers_of, count_of};
ghost use Rattle.pb_sorts.specs.Layout.{lists_of};

use crate::carrier::Carrier;
use crate::counting::{Counting, MAX_NUMBERS};
use crate::instance::Instance;
use crate::tuple::{count_tuples, place_of_tuple, tuple_at};
use pb_base::{Fault, MAX_EQUATIONS, MAX_PARAMETERS, OrMemory};
use std::alloc::Global;
use std::fmt;
use std::marker::Model;

/// `L02`: the carriers have more instances than may be declared.
#[derive(Clone, Copy, Debug, PartialEq, Eq)]
pub struct TooManyInstances;

impl Fault for TooManyInstances {}

impl fmt::Display for TooManyInstances {
    ghost use Rattle.std.specs.Prelude.{codes};

    ghost output = { λ _. Some (codes "L02") };

    fn fmt<W: fmt::Write>(&self, f: &mut fmt::Formatter<W>) -> fmt::Result {
        f.write_str("L02")
    }
}

/// Why there is no layout: the instances are too many, or memory was refused.
pub type LayoutError = OrMemory<TooManyInstances>;

/// The numbers of the instances of a sequence of equations. Contracts see, for each equation, the
/// carriers of its parameters.
#[derive(Drop)]
pub struct Layout {
    /// The carriers of each equation's parameters.
    carriers: Vec<Vec<Carrier>>,
    /// The first number of each equation, and behind these the count of all instances.
    firsts: Vec<u64>,
}

impl Model for Layout {
    ghost Value = { List (List Carrier) };

    ghost view = { λ layout. lists_of layout.carriers.items };

    ghost invariant = { λ layout. IsNumbered (lists_of layout.carriers.items) layout.firsts.items
        × IsWithinLimits (lists_of layout.carriers.items) };
}

/// How many instances equations have; none where these are more than the limit.
fn count_instances(equations: &[Vec<Carrier>], limit: u64) -> Option<u64>
    requires { limit ≤ MAX_NUMBERS }
    ensures fits { IsSome result ↔ (count_of (lists_of equations.now) ≤ limit) }
    ensures count { IfSome result (λ count. count ≡ count_of (lists_of equations.now)) }
{
    let mut count = 0;
    for parameters in equations {
        count += count_tuples(parameters)?;
        if count > limit {
            return None;
        }
    }
    Some(count)
}

impl Layout {
    /// The layout of equations with these parameters.
    ///
    /// # Errors
    /// `TooManyInstances` exactly where there are more than `MAX_INSTANCES`, and want of memory
    /// where memory is refused.
    pub fn new(alloc: Global, equations: &[Vec<Carrier>]) -> Result<Layout, LayoutError>
        requires equations { length equations.now ≤ MAX_EQUATIONS }
        requires parameters { All (λ parameters. vec_len parameters
            ≤ MAX_PARAMETERS) equations.now }
        ensures ok { IfOk result (λ layout. layout ≡ lists_of equations.now) }
        ensures too_many { (result ≡ Err (OrMemory.Refused (record {})))
            ↔ (instance_limit Declared < count_of (lists_of equations.now)) }
    {
        Layout::counting(alloc, equations, Counting::Declared)
    }

    /// The layout of equations with these parameters, by which instances count.
    ///
    /// # Errors
    /// `TooManyInstances` exactly where there are more than `counting.limit()`, and want of memory
    /// where memory is refused.
    pub fn counting(
        alloc: Global,
        equations: &[Vec<Carrier>],
        counting: Counting,
    ) -> Result<Layout, LayoutError>
        requires equations { length equations.now ≤ MAX_EQUATIONS }
        requires parameters { All (λ parameters. vec_len parameters
            ≤ MAX_PARAMETERS) equations.now }
        ensures ok { IfOk result (λ layout. layout ≡ lists_of equations.now) }
        ensures too_many { (result ≡ Err (OrMemory.Refused (record {})))
            ↔ (instance_limit counting < count_of (lists_of equations.now)) }
    {
        if count_instances(equations, counting.limit()).is_none() {
            return Err(LayoutError::Refused(TooManyInstances));
        }
        let mut carriers = Vec::with_capacity(alloc, equations.len())?;
        let mut firsts = Vec::with_capacity(alloc, equations.len() + 1)?;
        let mut first = 0;
        for parameters in equations {
            firsts.push(first)?;
            carriers.push(Vec::from_slice(alloc, parameters)?)?;
            first += count_tuples(parameters).unwrap();
        }
        firsts.push(first)?;
        Ok(Layout { carriers, firsts })
    }

    /// How many equations there are.
    pub fn equation_count(&self) -> usize
        ensures count { result ≡ length self.now }
        ensures few { result ≤ MAX_EQUATIONS }
    {
        self.carriers.len()
    }

    /// The carriers of an equation's parameters, in order.
    pub fn carriers(&self, equation: usize) -> &[Carrier]
        requires { equation < length self.now }
        ensures list { slice_get self.now equation ≡ Some result.now }
        ensures few { length result.now ≤ MAX_PARAMETERS }
    {
        &self.carriers[equation]
    }

    /// The number of an equation's first instance.
    pub fn first(&self, equation: usize) -> u64
        requires { equation < length self.now }
        ensures { result ≡ first_of (carriers_of self.now) equation }
    {
        self.firsts[equation]
    }

    /// How many instances an equation has.
    pub fn size(&self, equation: usize) -> u64
        requires { equation < length self.now }
        ensures { result ≡ size_of (carriers_of self.now) equation }
    {
        self.firsts[equation + 1] - self.first(equation)
    }

    /// How many instances there are: the numbers are those below.
    pub fn count(&self) -> u64
        ensures count { result ≡ count_of self.now }
        ensures few { result ≤ MAX_NUMBERS }
    {
        self.firsts[self.equation_count()]
    }

    /// The equation of the instance with this number.
    pub fn equation_of(&self, number: u64) -> usize
        requires { number < count_of self.now }
        ensures known { result < length self.now }
        ensures owner { IsTrue (owns_number (carriers_of self.now) result number) }
    {
        self.firsts.partition_point(|first| *first <= number) - 1
    }

    /// An instance's number. None where there is no such instance: its equation is unknown, or its
    /// values are not one of each of the equation's carriers.
    pub fn number(&self, instance: &Instance) -> Option<u64>
        ensures exists { IsSome result ↔ IsTrue
            (is_instance (carriers_of self.now) (instance_of instance.now)) }
        ensures place { IfSome result (λ number. slice_get (instances (carriers_of self.now)) number
            ≡ Some (instance_of instance.now)) }
    {
        let equation = instance.equation as usize;
        let carriers = self.carriers.get(equation)?;
        let place = place_of_tuple(carriers, &instance.values)?;
        Some(self.first(equation) + place)
    }

    /// The instance with this number.
    pub fn instance(&self, number: u64) -> Instance
        requires { number < count_of self.now }
        ensures { slice_get (instances (carriers_of self.now)) number ≡ Some (instance_of result) }
    {
        let equation = self.equation_of(number);
        let place = number - self.first(equation);
        let carriers = self.carriers(equation);
        let alloc = *self.firsts.allocator();
        Instance {
            equation: equation as u8,
            values: tuple_at(alloc, carriers, self.size(equation), place),
        }
    }
}
