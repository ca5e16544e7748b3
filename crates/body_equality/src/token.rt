use regex_ast::{Atom, Prefix, Side, Suffix, Way};

/// A piece of an expression that is written as a row.
#[derive(Clone, Copy)]
pub(crate) enum Token {
    /// A leaf.
    Leaf(Atom),
    /// What a node is; its parts follow.
    Node(Node),
    /// What an item of a list is; its parts and the other items follow.
    Item(Item),
    /// The end of a list.
    End(Row),
}

/// What a node of an expression is, without its parts.
#[derive(Clone, Copy, PartialEq, Eq)]
pub(crate) enum Node {
    Empty,
    Any,
    Edge,
    Atom,
    Letters,
    Group,
    Maybe,
    NotOne(u32),
    Cross,
    Suffixed,
    Prefixed,
    Ignore,
    Concat,
    Chain,
    Only,
    Rules(bool),
    Directed(Way),
    Steps,
}

/// What an item of a list is, without its parts.
#[derive(Clone, Copy, PartialEq, Eq)]
pub(crate) enum Item {
    Letter,
    OneSuffix(Suffix),
    OnePrefix(Prefix),
    Operand,
    Or,
    And,
    Less,
    Between,
    Rewrite(Side),
    Plain,
    Markup,
    Insert,
    CrossWith,
    Then,
}

/// What a list is of.
#[derive(Clone, Copy, PartialEq, Eq)]
pub(crate) enum Row {
    Letters,
    Suffixes,
    Prefixes,
    Operands,
    Links,
    Contexts,
    Groups,
    Mappings,
    Steps,
}
