//! Printing and copying at the limits of nesting and of operators, on a stack of 2 MB: what a tree
//! makes them recurse by is its nesting, never the length of its chains.

use pb_text::parse;
use pb_text_printer::{copy, print};
use pb_text_tree::{Formula, Spec};
use std::alloc::{AllocError, Global};
use std::test::Fail;
use std::thread;

const STACK: usize = 2 * 1024 * 1024;

/// A right side: `before`, so many times `open`, so many times `link`, the operand, so many times
/// `close`, and `after`.
struct Shape {
    before: &'static str,
    open: &'static str,
    levels: usize,
    link: &'static str,
    links: usize,
    operand: &'static str,
    close: &'static str,
    after: &'static str,
}

const FORMULA: Shape = Shape {
    before: "",
    open: "",
    levels: 64,
    link: "X && ",
    links: 8_192,
    operand: "X",
    close: "",
    after: "",
};

const TERM: Shape = Shape {
    before: "val(",
    open: "",
    levels: 63,
    link: "n + ",
    links: 8_192,
    operand: "n",
    close: "",
    after: " < n)",
};

const SHAPES: [Shape; 10] = [
    Shape {
        open: "!",
        ..FORMULA
    },
    Shape {
        open: "X && !(",
        levels: 32,
        link: "X || ",
        links: 8_160,
        close: ")",
        ..FORMULA
    },
    Shape {
        open: "(X => ",
        levels: 63,
        link: "!X => ",
        links: 8_066,
        close: ") && X",
        ..FORMULA
    },
    Shape {
        open: "forall n: Nat. ",
        link: "X => ",
        ..FORMULA
    },
    Shape {
        open: "X && (X || ",
        levels: 63,
        link: "X && ",
        links: 8_066,
        close: ")",
        ..FORMULA
    },
    Shape {
        open: "-",
        links: 8_191,
        ..TERM
    },
    Shape {
        open: "f(",
        link: "n * ",
        links: 8_191,
        close: ")",
        ..TERM
    },
    Shape {
        open: "n div (",
        link: "n - ",
        links: 8_128,
        close: ")",
        ..TERM
    },
    Shape {
        open: "(n + ",
        links: 8_065,
        close: ") * n",
        ..TERM
    },
    Shape {
        open: "(exists n: Nat. b || ",
        levels: 31,
        link: "b && ",
        links: 8_096,
        operand: "b",
        close: ") && b",
        after: ")",
        ..TERM
    },
];

/// A text of one equation with such a right side.
fn system(alloc: Global, shape: &Shape) -> Result<String, AllocError> {
    let mut text = String::from_str(alloc, "pbes\nmu X = ")?;
    text.push_str(shape.before)?;
    for _ in 0..shape.levels {
        text.push_str(shape.open)?;
    }
    for _ in 0..shape.links {
        text.push_str(shape.link)?;
    }
    text.push_str(shape.operand)?;
    for _ in 0..shape.levels {
        text.push_str(shape.close)?;
    }
    text.push_str(shape.after)?;
    text.push_str(";\ninit X;\n")?;
    Ok(text)
}

/// Whether a text is printed as it is, with its terms copied first.
fn survives(alloc: Global, text: &str) -> bool {
    if 100_000 <= text.len() {
        return false;
    }
    let Ok(mut spec) = parse(alloc, text.as_bytes()) else {
        return false;
    };
    copies(alloc, &mut spec) && is_printed(alloc, &spec, text)
}

/// Whether each term of a text is copied, and takes the place of what it was copied from.
fn copies(alloc: Global, spec: &mut Spec) -> bool {
    for equation in &mut spec.equations {
        if let Formula::Value { term, .. } = &mut equation.right {
            let Ok(copied) = copy(alloc, term) else {
                return false;
            };
            *term = copied;
        }
    }
    true
}

fn is_printed(alloc: Global, spec: &Spec, text: &str) -> bool {
    match print(alloc, spec) {
        Ok(printed) => printed.as_slice() == text.as_bytes(),
        Err(_) => false,
    }
}

#[test]
fn prints_and_copies_on_a_small_stack(rt: HostRuntime) -> Result<(), Fail> {
    for shape in &SHAPES {
        let alloc = rt.alloc();
        let text = system(alloc, shape)?;
        let child = thread::Builder::new()
            .stack_size(STACK)
            .spawn(&rt, move || survives(alloc, text.as_str()))?;
        let survived = child.join(&rt);
        assert!(rt; survived, "{} of {}", shape.levels, shape.open);
    }
    Ok(())
}
