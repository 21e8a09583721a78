// What was read of a constraint.

/// The bytes from one place up to another.
#[derive(Clone, Copy)]
pub struct Span {
    pub from: usize,
    pub end: usize,
}

/// A key, with the place of its label.
#[derive(Clone, Copy)]
pub enum Found {
    NodeId,
    Hostname,
    Role,
    Os,
    Arch,
    /// A label of the engine where true, and else of the node.
    Label(bool, Span),
}

/// A whole constraint, with the places of its parts.
#[derive(Clone, Copy)]
pub struct Parts {
    pub found: Found,
    pub equal: bool,
    pub value: Span,
}

/// What was read of a text, with the places of its parts.
#[derive(Clone, Copy)]
pub enum State {
    Start,
    /// The key begins there.
    InKey(usize),
    /// The name of a label, of the engine where true, begins there.
    InLabel(bool, usize),
    AfterKey(Found),
    InSign(Found, bool),
    AfterSign(Found, bool),
    /// The value begins there.
    InValue(Found, bool, usize),
    Finished(Parts),
}
