//! Parse trees of kernels.

use super::repeating::repeated;
use kernel_parser::{Block, Declaration, KernelTree, Range, ScheduleTree, Statement, Tree, parse};
use kernel_syntax::Op;
use kernel_text::tokens;
use std::alloc::Global;
use std::test::Fail;

fn parsed(alloc: Global, text: &[u8]) -> Option<KernelTree> {
    let found = tokens(alloc, text).ok()?;
    parse(alloc, &found).ok()
}

// The value of numbers with operators between them.
fn value(tree: &Tree) -> i64 {
    match tree {
        Tree::Number { value, .. } => *value,
        Tree::Group { inside, .. } => value(inside),
        Tree::Minus { operand, .. } => value(operand).wrapping_neg(),
        Tree::Binary {
            left,
            op,
            right,
            ..
        } => operated(*op, value(left), value(right)),
        _ => 0,
    }
}

fn operated(op: Op, left: i64, right: i64) -> i64 {
    match op {
        Op::Add => left.wrapping_add(right),
        Op::Sub => left.wrapping_sub(right),
        Op::Mul => left.wrapping_mul(right),
        Op::Div => left.checked_div(right).unwrap_or(0),
        Op::Lt => i64::from(left < right),
        _ => 0,
    }
}

// The value of what a kernel's only statement assigns.
fn assigned(alloc: Global, text: &[u8]) -> Option<i64> {
    let tree = parsed(alloc, text)?;
    match tree.body.stmts.first()? {
        Statement::Assign { value: made, .. } => Some(value(made)),
        _ => None,
    }
}

#[test]
fn operators_group_as_they_bind(rt: HostRuntime) {
    let rows: [(&[u8], i64); 7] = [
        (b"main { a = 1 - 2 - 3 }", -4),
        (b"main { a = 2 + 3 * 4 }", 14),
        (b"main { a = 2 * 3 + 4 }", 10),
        (b"main { a = -2 * 3 - -1 }", -5),
        // A minus binds to the least number, which is its own negative, before it is divided.
        (
            b"main { a = -(-9223372036854775807 - 1) / 2 }",
            -4_611_686_018_427_387_904,
        ),
        (b"main { a = (2 + 3) * 4 }", 20),
        (b"main { a = 1 + 2 < 2 * 2 }", 1),
    ];
    for (text, due) in rows {
        assert!(rt; assigned(rt.alloc(), text) == Some(due));
    }
}

fn are_declarations(declarations: &[Declaration]) -> bool {
    matches!(
        declarations,
        [
            Declaration::Array {
                line: 1,
                name_line: 2,
                width_line: 3,
                count_line: 4,
                count: 8,
                ..
            },
            Declaration::Mutex {
                line: 5,
                name_line: 6,
                ..
            },
        ]
    )
}

// The line is the next one, with which it goes on.
fn is_next(at: &mut u32, line: u32) -> bool {
    *at = at.wrapping_add(1);
    *at == line
}

fn are_next(at: &mut u32, lines: &[u32]) -> bool {
    lines.iter().all(|line| is_next(at, *line))
}

// Each token of the expression is on the next line.
fn is_expression(at: &mut u32, tree: &Tree) -> bool {
    match tree {
        Tree::Number { line, .. }
        | Tree::Name { line, .. }
        | Tree::Tid { line }
        | Tree::Span { line } => is_next(at, *line),
        Tree::Element {
            line,
            opened,
            index,
            closed,
            ..
        } => are_next(at, &[*line, *opened]) && is_expression(at, index) && is_next(at, *closed),
        Tree::Group {
            opened,
            inside,
            closed,
        } => is_next(at, *opened) && is_expression(at, inside) && is_next(at, *closed),
        Tree::Minus { line, operand } => is_next(at, *line) && is_expression(at, operand),
        Tree::Binary {
            left,
            line,
            right,
            ..
        } => is_expression(at, left) && is_next(at, *line) && is_expression(at, right),
    }
}

// An empty block.
fn is_block(at: &mut u32, block: &Block) -> bool {
    block.stmts.is_empty() && are_next(at, &[block.opened, block.closed])
}

fn is_range(at: &mut u32, range: &Range) -> bool {
    are_next(at, &[range.name_line, range.in_line])
        && is_expression(at, &range.from)
        && is_next(at, range.dots)
        && is_expression(at, &range.to)
}

fn is_schedule(at: &mut u32, schedule: &ScheduleTree) -> bool {
    match schedule {
        ScheduleTree::Unsaid => true,
        ScheduleTree::Static { line } | ScheduleTree::Dynamic { line } => is_next(at, *line),
        ScheduleTree::StaticBy {
            line,
            number_line,
            ..
        }
        | ScheduleTree::DynamicBy {
            line,
            number_line,
            ..
        } => are_next(at, &[*line, *number_line]),
    }
}

// Each token of the statement is on the next line, and its blocks are empty.
fn is_statement(at: &mut u32, stmt: &Statement) -> bool {
    match stmt {
        Statement::Let {
            line,
            name_line,
            sign_line,
            value,
            ..
        } => are_next(at, &[*line, *name_line, *sign_line]) && is_expression(at, value),
        Statement::Assign {
            line,
            sign_line,
            value,
            ..
        } => are_next(at, &[*line, *sign_line]) && is_expression(at, value),
        Statement::Store {
            line,
            opened,
            index,
            closed,
            sign_line,
            value,
            ..
        } => {
            are_next(at, &[*line, *opened])
                && is_expression(at, index)
                && are_next(at, &[*closed, *sign_line])
                && is_expression(at, value)
        }
        Statement::Update {
            line,
            name_line,
            opened,
            index,
            closed,
            sign_line,
            value,
            ..
        } => {
            are_next(at, &[*line, *name_line, *opened])
                && is_expression(at, index)
                && are_next(at, &[*closed, *sign_line])
                && is_expression(at, value)
        }
        Statement::If { line, test, yes } => {
            is_next(at, *line) && is_expression(at, test) && is_block(at, yes)
        }
        Statement::IfElse {
            line,
            test,
            yes,
            else_line,
            no,
        } => {
            is_next(at, *line)
                && is_expression(at, test)
                && is_block(at, yes)
                && is_next(at, *else_line)
                && is_block(at, no)
        }
        Statement::Loop { line, range, body } => {
            is_next(at, *line) && is_range(at, range) && is_block(at, body)
        }
        Statement::Parallel {
            line,
            number_line,
            body,
            ..
        } => are_next(at, &[*line, *number_line]) && is_block(at, body),
        Statement::For {
            line,
            range,
            schedule,
            nowait,
            body,
        } => {
            is_next(at, *line)
                && is_range(at, range)
                && is_schedule(at, schedule)
                && nowait.iter().all(|line| is_next(at, *line))
                && is_block(at, body)
        }
        Statement::Barrier { line } => is_next(at, *line),
        Statement::Critical { line, body } => is_next(at, *line) && is_block(at, body),
        Statement::CriticalOf {
            line,
            name_line,
            body,
            ..
        } => are_next(at, &[*line, *name_line]) && is_block(at, body),
    }
}

#[test]
fn each_token_keeps_its_line(rt: HostRuntime) -> Result<(), Fail> {
    let text = b"array\na\ni64\n8\nmutex\nm\nmain\n{\n\
        let\nx\n=\n-\na\n[\n(\n1\n+\n2\n)\n]\nx\n=\ntid\na\n[\n0\n]\n=\n1\natomic\na\n[\n1\n]\n-=\n2\n\
        if\n1\n{\n}\nelse\n{\n}\nif\n2\n{\n}\nloop\ni\nin\n0\n..\n1\n{\n}\nparallel\n2\n{\n}\n\
        for\nj\nin\n0\n..\n4\nstatic\n2\nnowait\n{\n}\nbarrier\ncritical\n{\n}\ncritical\nm\n{\n}\n}";
    let tree = parsed(rt.alloc(), text).ok_or("tree")?;
    assert!(rt; are_declarations(&tree.declarations) && (tree.line, tree.body.opened) == (7, 8));
    let mut at = 8;
    for stmt in &tree.body.stmts {
        assert!(rt; is_statement(&mut at, stmt), "behind line {at}");
    }
    assert!(rt; tree.body.stmts.len() == 12 && is_next(&mut at, tree.body.closed));
    Ok(())
}

// An `if` with one `if` in it, with two statements in its `else`, and an `if` behind it.
fn has_else_at_the_first(stmts: &[Statement]) -> bool {
    match stmts {
        [Statement::IfElse { yes, no, .. }, Statement::If { .. }] => {
            matches!(yes.stmts.as_slice(), [Statement::If { .. }]) && no.stmts.len() == 2
        }
        _ => false,
    }
}

#[test]
fn an_else_belongs_to_the_if_before_it(rt: HostRuntime) -> Result<(), Fail> {
    let text = b"main { if 1 { if 2 { } } else { barrier barrier } if 3 { } }";
    let tree = parsed(rt.alloc(), text).ok_or("tree")?;
    assert!(rt; has_else_at_the_first(&tree.body.stmts));
    Ok(())
}

#[test]
fn long_texts_are_parsed_and_dropped(rt: HostRuntime) -> Result<(), Fail> {
    let rows: [(&[u8], &[u8], usize, &[u8], usize); 5] = [
        (b"main{a=1", b"+1", 32_000, b"}", 1),
        (
            b"main{if 1{if 1{if 1{if 1{if 1{if 1{if 1{if 1{if 1{if 1{if 1{if 1{if 1{if 1{if 1{if 1{if 1{if 1{if 1{if 1{if 1{if 1{if 1{if 1{if 1{if 1{if 1{if 1{if 1{if 1{if 1{a=",
            b"1<1+1*(",
            32,
            b"1))))))))))))))))))))))))))))))))}}}}}}}}}}}}}}}}}}}}}}}}}}}}}}}}",
            1,
        ),
        (b"main{", b"a=1 ", 10_000, b"}", 10_000),
        (b"main{if 1{}", b"else{}if 1{}", 5_000, b"}", 5_001),
        (
            b"main{",
            b"if 1{",
            31,
            b"}}}}}}}}}}}}}}}}}}}}}}}}}}}}}}}}",
            1,
        ),
    ];
    for (before, text, count, behind, len) in rows {
        let bytes = repeated(rt.alloc(), before, text, count, behind)?;
        let tree = parsed(rt.alloc(), &bytes).ok_or("tree")?;
        assert_eq!(rt; tree.body.stmts.len(), len);
    }
    Ok(())
}
