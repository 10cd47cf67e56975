//! What is to be run, and its words.
ghost use Rattle.std.specs.Prelude.{◌≤◌};
ghost use Rattle.pm_limits.specs.declared.TheConstants.{MAX_EDGES};

use pm_limits::MAX_EDGES;

/// The trees that are grown.
#[derive(Clone, Copy, Debug, PartialEq, Eq)]
pub enum Shape {
    /// Each choice is drawn.
    Drawn,
    /// Each new leaf is put beside the newest one, so that the tree is one path.
    Path,
}

/// The call that is run.
#[derive(Clone, Copy, Debug, PartialEq, Eq)]
pub enum Call {
    /// The code of a list.
    Code,
    /// The permutation of a code.
    Arrange,
    /// A list of choices, and no more.
    Choices(Shape),
    /// The tree of a list of choices.
    Tree(Shape),
    /// The same, and then its labels and its shape.
    Grow(Shape),
    /// The tree of a list of choices, and then the choices of the tree.
    Ungrow(Shape),
    /// The map of a rotation.
    Parts,
}

/// A call, and how many entries, choices or edges its input has.
#[derive(Clone, Copy, Debug)]
pub struct Order {
    /// The call.
    pub call: Call,
    /// The number of entries, choices or edges.
    pub size: u32,
    ghost few: { size ≤ MAX_EDGES },
}

impl Order {
    /// The order that the words spell: `code N`, `arrange N`, `parts N`, or `choices`, `tree`, `grow` or `ungrow` with
    /// `N SHAPE`, where N is at most `MAX_EDGES` and SHAPE is `drawn` or `path`.
    pub fn of_words(words: &[String]) -> Option<Order> {
        if words.len() < 2 {
            return None;
        }
        let call = call_of(&words[0], &words[2..])?;
        let size = words[1].as_str().parse::<u32>().ok()?;
        if size > MAX_EDGES {
            return None;
        }
        Some(Order { call, size })
    }
}

// The call with this name, and with the words behind the size.
fn call_of(name: &String, rest: &[String]) -> Option<Call> {
    match name.as_str() {
        "code" if rest.is_empty() => Some(Call::Code),
        "arrange" if rest.is_empty() => Some(Call::Arrange),
        "parts" if rest.is_empty() => Some(Call::Parts),
        "choices" => Some(Call::Choices(shape_of(rest)?)),
        "tree" => Some(Call::Tree(shape_of(rest)?)),
        "grow" => Some(Call::Grow(shape_of(rest)?)),
        "ungrow" => Some(Call::Ungrow(shape_of(rest)?)),
        _ => None,
    }
}

// The shape that the words are.
fn shape_of(words: &[String]) -> Option<Shape> {
    if words.len() != 1 {
        return None;
    }
    match words[0].as_str() {
        "drawn" => Some(Shape::Drawn),
        "path" => Some(Shape::Path),
        _ => None,
    }
}
