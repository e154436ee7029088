//! Where a name occurs in a protocol or a formula. Nothing is claimed of the answers: what is named
//! is left out of the elements that may be moved, and the test refuses what was overlooked.

use pb_protocol_tree::{
    Assignment, Formula, Link, Protocol, Step, StepSet, StepSetLink, StepValue,
};
use pb_text_tree::{Argument, ArithmeticLink, Term, TermLink};

#[cycle(terms)]
fn in_links(name: &str, links: &[TermLink]) -> bool {
    for link in links {
        if in_term(name, &link.operand) {
            return true;
        }
    }
    false
}

#[cycle(terms)]
fn in_operations(name: &str, links: &[ArithmeticLink]) -> bool {
    for link in links {
        if in_term(name, &link.operand) {
            return true;
        }
    }
    false
}

#[cycle(terms)]
fn in_arguments(name: &str, arguments: &[Argument]) -> bool {
    for argument in arguments {
        if in_term(name, &argument.term) {
            return true;
        }
    }
    false
}

/// Whether a term names it.
#[cycle(terms)]
fn in_term(name: &str, term: &Term) -> bool {
    match term {
        Term::Constant { .. } | Term::Number { .. } => false,
        Term::Name(other) => other.text.as_str() == name,
        Term::Not { operand, .. } => in_term(name, operand),
        Term::Negative { operand, .. } => in_term(name, operand),
        Term::Chain { first, links, .. } => in_term(name, first) || in_links(name, links),
        Term::Comparison { left, right, .. } => in_term(name, left) || in_term(name, right),
        Term::Arithmetic { first, links } => in_term(name, first) || in_operations(name, links),
        Term::Application { arguments, .. } => in_arguments(name, arguments),
        Term::Quantified { body, .. } => in_term(name, body),
    }
}

fn in_values(name: &str, values: &[StepValue]) -> bool {
    for value in values {
        if let StepValue::Value(argument) = value {
            if in_term(name, &argument.term) {
                return true;
            }
        }
    }
    false
}

#[cycle(step_sets)]
fn in_set_links(name: &str, links: &[StepSetLink]) -> bool {
    for link in links {
        if in_set(name, &link.operand) {
            return true;
        }
    }
    false
}

/// Whether a set of steps names it.
#[cycle(step_sets)]
fn in_set(name: &str, set: &StepSet) -> bool {
    match set {
        StepSet::All { .. } | StepSet::Step(_) => false,
        StepSet::Instances { values, .. } => in_values(name, values),
        StepSet::Complement { operand, .. } => in_set(name, operand),
        StepSet::Union { first, links } => in_set(name, first) || in_set_links(name, links),
    }
}

#[cycle(formulas)]
fn in_operands(name: &str, links: &[Link]) -> bool {
    for link in links {
        if in_formula(name, &link.operand) {
            return true;
        }
    }
    false
}

/// Whether a formula names it.
#[cycle(formulas)]
pub(crate) fn in_formula(name: &str, formula: &Formula) -> bool {
    match formula {
        Formula::Constant { .. } | Formula::Variable(_) => false,
        Formula::Data { term, .. } => in_term(name, term),
        Formula::Negation { operand, .. } => in_formula(name, operand),
        Formula::Chain { first, links, .. } => in_formula(name, first) || in_operands(name, links),
        Formula::Modal { steps, operand, .. } => in_set(name, steps) || in_formula(name, operand),
        Formula::Fixpoint { body, .. } => in_formula(name, body),
        Formula::Quantified { body, .. } => in_formula(name, body),
    }
}

fn in_assignments(name: &str, assignments: &[Assignment]) -> bool {
    for assignment in assignments {
        if in_arguments(name, &assignment.index) || in_term(name, &assignment.value.term) {
            return true;
        }
    }
    false
}

fn in_steps(name: &str, steps: &[Step]) -> bool {
    for step in steps {
        if in_term(name, &step.guard) || in_assignments(name, &step.assignments) {
            return true;
        }
    }
    false
}

/// Whether a step or a definition of a protocol names it. What is named at the start doesn't count.
pub(crate) fn in_protocol(name: &str, protocol: &Protocol) -> bool {
    for definition in &protocol.definitions {
        if in_term(name, &definition.term) {
            return true;
        }
    }
    in_steps(name, &protocol.steps)
}
