//! A state by the values of its variables, with one for an array whose elements are all equal.

ghost use Rattle.std.specs.Prelude.{◌≡◌, ◌++◌, ◌≤◌, OnOk, string_bytes, [], codes, drop, length};
ghost use Rattle.std.specs.Prelude.{if◌then◌else◌, map};
ghost use Rattle.pb_model_words.specs.Arrays.{are_equal, array_name, first_array_length, is_element_of};
ghost use Rattle.pb_model_words.specs.Arrays.{merged_array, variable_values};
ghost use Rattle.pb_model_words.specs.Words.{equation_text, equations, marked};
ghost use Rattle.pb_model_words.specs.View.{declarations, variable_said};

use crate::values::{Values, push_mark};
use crate::variables::Variable;
use std::alloc::AllocError;

/// The array of an element, which is what comes before the bracket of its index; the name of any
/// other variable is its own.
fn array_name(name: &str) -> &str
    ensures { result.now ≡ array_name name.now }
{
    match name.split_once('(') {
        None => name,
        Some((array, _)) => array,
    }
}

fn is_element_of(array: &str, name: &str) -> bool
    ensures { result ≡ is_element_of array.now name.now }
{
    array == array_name(name)
}

/// How many of the variables, from the first one on, are elements of its array.
fn first_array_length(variables: &[Variable<'_>]) -> usize
    ensures { result ≡ first_array_length (map variable_said variables.now) }
{
    if variables.is_empty() {
        return 0;
    }
    let array = array_name(variables[0].name);
    for k in 1..variables.len() {
        if !is_element_of(array, variables[k].name) {
            return k;
        }
    }
    variables.len()
}

/// The variables behind so many.
fn variables_behind<'a, 'b>(variables: &'a [Variable<'b>], count: usize) -> &'a [Variable<'b>]
    requires { count ≤ length variables.now }
    ensures { result.now ≡ drop count variables.now }
{
    &variables[count..]
}

/// The values behind so many.
fn values_behind(values: &[i64], count: usize) -> &[i64]
    requires { count ≤ length values.now }
    ensures { result.now ≡ drop count values.now }
{
    &values[count..]
}

fn are_equal(values: &[i64]) -> bool
    ensures { result ≡ are_equal values.now }
{
    for k in 1..values.len() {
        if values[k] != values[0] {
            return false;
        }
    }
    true
}

impl Values<'_> {
    /// Each variable with its value, with commas between.
    fn push_each(
        &self,
        text: &mut String,
        variables: &[Variable<'_>],
        values: &[i64],
        begins: bool,
    ) -> Result<(), AllocError>
        ensures { OnOk result (string_bytes text.new ≡ string_bytes text.old
            ++ marked (if begins then [] else codes ", ") (codes ", ")
            (map (equation_text (declarations self.now.sorts.now))
            (variable_values (map variable_said variables.now) values.now))) }
    {
        let mut is_first = begins;
        for k in 0..variables.len().min(values.len()) {
            push_mark(text, is_first, "", ", ")?;
            self.push_binding(text, &variables[k], " = ", values[k])?;
            is_first = false;
        }
        Ok(())
    }

    /// The elements of an array: all by one value, where they are equal.
    fn push_array(
        &self,
        text: &mut String,
        variables: &[Variable<'_>],
        values: &[i64],
        begins: bool,
    ) -> Result<(), AllocError>
        requires { length variables.now ≡ length values.now }
        ensures { OnOk result (string_bytes text.new ≡ string_bytes text.old
            ++ marked (if begins then [] else codes ", ") (codes ", ")
            (map (equation_text (declarations self.now.sorts.now))
            (merged_array (variable_values (map variable_said variables.now) values.now)))) }
    {
        if variables.is_empty() || !are_equal(values) {
            return self.push_each(text, variables, values, begins);
        }
        let element = variables[0];
        let array = Variable {
            name: array_name(element.name),
            place: element.place,
            sort: element.sort,
        };
        push_mark(text, begins, "", ", ")?;
        self.push_binding(text, &array, " = ", values[0])
    }

    /// Each variable with its value, with commas between; an array of equal elements has one.
    pub fn push_equations(
        &self,
        text: &mut String,
        variables: &[Variable<'_>],
        values: &[i64],
    ) -> Result<(), AllocError>
        ensures { OnOk result (string_bytes text.new ≡ string_bytes text.old
            ++ marked [] (codes ", ") (equations (declarations self.now.sorts.now)
            (map variable_said variables.now) values.now)) }
    {
        let count = variables.len().min(values.len());
        let mut variables_left = &variables[..count];
        let mut values_left = &values[..count];
        let mut is_first = true;
        while !variables_left.is_empty() {
            let length = first_array_length(variables_left);
            let elements = &variables_left[..length];
            self.push_array(text, elements, &values_left[..length], is_first)?;
            variables_left = variables_behind(variables_left, length);
            values_left = values_behind(values_left, length);
            is_first = false;
        }
        Ok(())
    }
}
