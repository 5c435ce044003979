//! The syntax types of a kernel.
use crate::declarations::{Arrays, Name, Names};

/// A whole kernel. Its `main` is a team of span 1.
#[derive(Drop)]
pub struct Kernel {
    /// The shared arrays, in order of declaration.
    pub arrays: Arrays,
    /// The declared mutexes in order; the first has the number 1, since 0 is that of all unnamed
    /// critical sections.
    pub mutexes: Names,
    /// The body of `main`.
    pub main: Team,
    /// How many local variables the kernel has: one for each `let`, `loop` and `for` in the text.
    pub slots: u32,
}

/// A shared array. Element `i` has the address `base + i * width` and the number `first + i`.
#[derive(Drop)]
pub struct Array {
    pub name: Name,
    /// Bytes of an element: 1, 2, 4 or 8.
    pub width: u8,
    /// How many elements it has.
    pub count: u32,
    /// The address of its first element.
    pub base: u64,
    /// The number of its first element, counted over all arrays in order.
    pub first: u32,
}

/// The lanes of a parallel region (OpenMP 5.2: a team of threads), and what each executes.
#[cycle(stmts)]
#[derive(Drop)]
pub struct Team {
    /// How many lanes the team has.
    pub span: u16,
    /// The line of `parallel` or `main`.
    pub line: u32,
    /// The line of the closing brace.
    pub end: u32,
    pub body: Body,
}

/// How a worksharing loop's iterations go to the lanes (OpenMP 5.2: its schedule).
#[derive(Clone, Copy, PartialEq)]
pub enum Schedule {
    /// One contiguous share for each lane, of nearly equal lengths.
    Even,
    /// Chunks of this many iterations, dealt to the lanes in turn.
    Static(u32),
    /// Chunks of this many iterations, each drawn by a lane that is free.
    Dynamic(u32),
}

/// An operation on two values.
#[derive(Clone, Copy, PartialEq, Debug)]
pub enum Op {
    Add,
    Sub,
    Mul,
    Div,
    Rem,
    Eq,
    Ne,
    Lt,
    Le,
    Gt,
    Ge,
}

/// An expression. A line is that of the array's name or of the operator.
pub enum Expr {
    Number(i64),
    /// A local variable, by its slot.
    Slot(u32),
    /// The lane's number in its team.
    Tid,
    /// The team's number of lanes.
    Span,
    /// An element of the array of this number.
    Load {
        array: u32,
        index: Box<Expr>,
        line: u32,
        site: u16,
    },
    Neg(Box<Expr>),
    Binary {
        op: Op,
        line: u32,
        left: Box<Expr>,
        right: Box<Expr>,
    },
}

impl Drop for Expr {
    // A loop, since a sum may be as long as its kernel's text. Its left operands come first.
    fn drop(mut self) {
        loop {
            match self {
                Expr::Number(_) | Expr::Slot(_) | Expr::Tid | Expr::Span => return,
                Expr::Load {
                    array: _,
                    index,
                    line: _,
                    site: _,
                } => self = Box::into_inner(index),
                Expr::Neg(operand) => self = Box::into_inner(operand),
                Expr::Binary {
                    op: _,
                    line: _,
                    left,
                    right: _,
                } => self = Box::into_inner(left),
            }
        }
    }
}

/// A list of statements.
#[cycle(stmts)]
#[derive(Drop)]
pub struct Body {
    pub stmts: Vec<Stmt>,
}

/// A statement. `line` is that of the array's name or of the keyword, `end` that of the closing
/// brace.
#[cycle(stmts)]
#[derive(Drop)]
pub enum Stmt {
    Set {
        slot: u32,
        value: Expr,
    },
    Store {
        array: u32,
        index: Expr,
        value: Expr,
        line: u32,
        site: u16,
    },
    /// Adds the value to the element, or takes it away with `minus`, in one step (OpenMP 5.2: an
    /// atomic update).
    Update {
        array: u32,
        index: Expr,
        value: Expr,
        minus: bool,
        line: u32,
        site: u16,
    },
    /// A missing `else` is an empty `no`.
    If {
        test: Expr,
        yes: Body,
        no: Body,
    },
    Loop {
        slot: u32,
        from: Expr,
        to: Expr,
        body: Body,
    },
    Parallel {
        team: Team,
    },
    For {
        slot: u32,
        from: Expr,
        to: Expr,
        schedule: Schedule,
        nowait: bool,
        line: u32,
        end: u32,
        body: Body,
    },
    Barrier {
        line: u32,
    },
    Critical {
        mutex: u16,
        line: u32,
        end: u32,
        body: Body,
    },
}
