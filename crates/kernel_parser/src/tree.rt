//! A kernel as it is written.
use kernel_syntax::{Name, Op};

/// An expression with the line of each of its tokens.
pub enum Tree {
    Number {
        line: u32,
        value: i64,
    },
    Name {
        line: u32,
        name: Name,
    },
    Tid {
        line: u32,
    },
    Span {
        line: u32,
    },
    Element {
        line: u32,
        name: Name,
        opened: u32,
        index: Box<Tree>,
        closed: u32,
    },
    Group {
        opened: u32,
        inside: Box<Tree>,
        closed: u32,
    },
    Minus {
        line: u32,
        operand: Box<Tree>,
    },
    Binary {
        left: Box<Tree>,
        op: Op,
        line: u32,
        right: Box<Tree>,
    },
}

impl Drop for Tree {
    // A loop, since a sum may be as long as its kernel's text. Its left operands come first.
    fn drop(mut self) {
        loop {
            match self {
                Tree::Number { line: _, value: _ }
                | Tree::Name { line: _, name: _ }
                | Tree::Tid { line: _ }
                | Tree::Span { line: _ } => return,
                Tree::Element {
                    line: _,
                    name: _,
                    opened: _,
                    index,
                    closed: _,
                } => self = Box::into_inner(index),
                Tree::Group {
                    opened: _,
                    inside,
                    closed: _,
                } => self = Box::into_inner(inside),
                Tree::Minus { line: _, operand } => self = Box::into_inner(operand),
                Tree::Binary {
                    left,
                    op: _,
                    line: _,
                    right: _,
                } => self = Box::into_inner(left),
            }
        }
    }
}

/// NAME `in` expr `..` expr
#[derive(Drop)]
pub struct Range {
    pub name_line: u32,
    pub name: Name,
    pub in_line: u32,
    pub from: Tree,
    pub dots: u32,
    pub to: Tree,
}

/// The schedule of a worksharing loop, if it is written.
#[derive(Clone, Copy)]
pub enum ScheduleTree {
    Unsaid,
    Static {
        line: u32,
    },
    StaticBy {
        line: u32,
        number_line: u32,
        chunk: i64,
    },
    Dynamic {
        line: u32,
    },
    DynamicBy {
        line: u32,
        number_line: u32,
        chunk: i64,
    },
}

/// Statements between braces.
#[cycle(statements)]
#[derive(Drop)]
pub struct Block {
    pub opened: u32,
    pub stmts: Vec<Statement>,
    pub closed: u32,
}

/// A statement with the line of each of its tokens.
#[cycle(statements)]
#[derive(Drop)]
pub enum Statement {
    Let {
        line: u32,
        name_line: u32,
        name: Name,
        sign_line: u32,
        value: Tree,
    },
    Assign {
        line: u32,
        name: Name,
        sign_line: u32,
        value: Tree,
    },
    Store {
        line: u32,
        name: Name,
        opened: u32,
        index: Tree,
        closed: u32,
        sign_line: u32,
        value: Tree,
    },
    Update {
        line: u32,
        name_line: u32,
        name: Name,
        opened: u32,
        index: Tree,
        closed: u32,
        minus: bool,
        sign_line: u32,
        value: Tree,
    },
    If {
        line: u32,
        test: Tree,
        yes: Block,
    },
    IfElse {
        line: u32,
        test: Tree,
        yes: Block,
        else_line: u32,
        no: Block,
    },
    Loop {
        line: u32,
        range: Range,
        body: Block,
    },
    Parallel {
        line: u32,
        number_line: u32,
        span: i64,
        body: Block,
    },
    For {
        line: u32,
        range: Range,
        schedule: ScheduleTree,
        nowait: Option<u32>,
        body: Block,
    },
    Barrier {
        line: u32,
    },
    Critical {
        line: u32,
        body: Block,
    },
    CriticalOf {
        line: u32,
        name_line: u32,
        name: Name,
        body: Block,
    },
}

/// A declaration with the line of each of its tokens.
#[derive(Drop)]
pub enum Declaration {
    Array {
        line: u32,
        name_line: u32,
        name: Name,
        width_line: u32,
        width: Name,
        count_line: u32,
        count: i64,
    },
    Mutex {
        line: u32,
        name_line: u32,
        name: Name,
    },
}

/// A kernel as it is written.
#[derive(Drop)]
pub struct KernelTree {
    pub declarations: Vec<Declaration>,
    /// The line of `main`.
    pub line: u32,
    pub body: Block,
}
