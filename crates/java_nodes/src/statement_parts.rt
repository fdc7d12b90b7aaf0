ghost use Rattle.std.specs.Prelude.{◌≡◌, map, option_map, max, IfOk};
ghost use Rattle.java_syntax.specs.ExpressionTrees.{expr_of};
ghost use Rattle.java_syntax.specs.StatementTrees as tree;
ghost use Rattle.java_syntax.specs.StatementTrees.{block_of, catch_of, for_start_of, local_of, resource_of, stmt_of, variable_of};
ghost use Rattle.java_syntax.specs.DeclarationTrees.{class_of, unit_of};
ghost use Rattle.java_values.specs.NestedTrees.{nested_of, catches_in, exprs_in, modifiers_in, optional_in, resources_in, stmts_in, variables_in};
ghost use Rattle.java_values.specs.Outcomes.{Gives, node};
ghost use Rattle.java_nodes.specs.StatementParts as parts;

use java_syntax::{
    Block, Catch, ClassDecl, Expr, ForStart, Import, Local, Modifier, Name, Resource, Stmt, Typ,
    Unit, Variable,
};
use java_values::{BuildFail, Nested, boxed, deeper};
use rlc_base::{NoMemory, Pos, Text};
use std::alloc::Global;

/// The statement, one level deeper than its parts.
///
/// # Errors
///
/// `TooDeep` where it would be deeper than the limit.
pub fn statement(limit: u32, below: u32, tree: Stmt, pos: Pos) -> Result<Nested<Stmt>, BuildFail>
    ensures { Gives (nested_of stmt_of) result (node limit below (stmt_of tree)) }
{
    match deeper(limit, below, pos) {
        Ok(depth) => Ok(Nested { tree, depth }),
        Err(fail) => {
            drop(tree);
            Err(fail)
        }
    }
}

/// A block (JLS 14.2), which has the levels of its statements.
pub fn block(all: Nested<Vec<Stmt>>, pos: Pos, end: Pos) -> Nested<Block>
    ensures { nested_of block_of result ≡ record { tree = tree.Braces (tree.statements (map stmt_of all.tree.items)) pos end; depth = all.depth } }
{
    Nested {
        tree: Block {
            statements: all.tree,
            pos,
            end,
        },
        depth: all.depth,
    }
}

/// A block as a statement (JLS 14.2).
///
/// # Errors
///
/// `TooDeep` where it would be deeper than the limit.
pub fn block_statement(limit: u32, block: Nested<Block>) -> Result<Nested<Stmt>, BuildFail>
    ensures { Gives (nested_of stmt_of) result (node limit block.depth (tree.BlockOf (block_of block.tree))) }
{
    let pos = block.tree.pos;
    statement(limit, block.depth, Stmt::Block(block.tree), pos)
}

/// The statement in a box.
fn boxed_statement(alloc: Global, tree: Stmt) -> Result<Box<Stmt>, NoMemory>
    ensures { IfOk result (λ part. part.value ≡ tree) }
{
    boxed(alloc, tree)
}

/// A condition, and the statement that it guards, in a box.
#[derive(Drop)]
struct Guarded {
    /// The condition.
    condition: Expr,
    /// The statement.
    body: Box<Stmt>,
}

/// The condition, and the statement in a box.
fn with_body(
    alloc: Global,
    condition: Nested<Expr>,
    body: Nested<Stmt>,
) -> Result<Guarded, NoMemory>
    ensures condition { IfOk result (λ parts. parts.condition ≡ condition.tree) }
    ensures body { IfOk result (λ parts. parts.body.value ≡ body.tree) }
{
    match boxed_statement(alloc, body.tree) {
        Ok(body) => Ok(Guarded {
            condition: condition.tree,
            body,
        }),
        Err(NoMemory) => Err(NoMemory),
    }
}

/// An `if` without `else` (JLS 14.9).
///
/// # Errors
///
/// `TooDeep` where it would be deeper than the limit.
pub fn if_statement(
    alloc: Global,
    limit: u32,
    condition: Nested<Expr>,
    body: Nested<Stmt>,
    pos: Pos,
) -> Result<Nested<Stmt>, BuildFail>
    ensures { Gives (nested_of stmt_of) result (node limit (max condition.depth body.depth) (tree.If (expr_of condition.tree) (stmt_of body.tree) tree.no_else pos)) }
{
    let below = condition.depth.max(body.depth);
    match with_body(alloc, condition, body) {
        Ok(Guarded { condition, body }) => statement(
            limit,
            below,
            Stmt::If {
                condition,
                then: body,
                otherwise: None,
                pos,
            },
            pos,
        ),
        Err(NoMemory) => Err(BuildFail::NoMemory),
    }
}

/// An `if` with `else` (JLS 14.9).
///
/// # Errors
///
/// `TooDeep` where it would be deeper than the limit.
pub fn if_else_statement(
    alloc: Global,
    limit: u32,
    condition: Nested<Expr>,
    body: Nested<Stmt>,
    otherwise: Nested<Stmt>,
    pos: Pos,
) -> Result<Nested<Stmt>, BuildFail>
    ensures { Gives (nested_of stmt_of) result (node limit (max condition.depth (max body.depth otherwise.depth)) (tree.If (expr_of condition.tree) (stmt_of body.tree) (tree.some_else (stmt_of otherwise.tree)) pos)) }
{
    let below = condition.depth.max(body.depth.max(otherwise.depth));
    match (
        with_body(alloc, condition, body),
        boxed_statement(alloc, otherwise.tree),
    ) {
        (Ok(Guarded { condition, body }), Ok(last)) => statement(
            limit,
            below,
            Stmt::If {
                condition,
                then: body,
                otherwise: Some(last),
                pos,
            },
            pos,
        ),
        _ => Err(BuildFail::NoMemory),
    }
}

/// A `while` (JLS 14.12).
///
/// # Errors
///
/// `TooDeep` where it would be deeper than the limit.
pub fn while_statement(
    alloc: Global,
    limit: u32,
    condition: Nested<Expr>,
    body: Nested<Stmt>,
    pos: Pos,
) -> Result<Nested<Stmt>, BuildFail>
    ensures { Gives (nested_of stmt_of) result (node limit (max condition.depth body.depth) (tree.While (expr_of condition.tree) (stmt_of body.tree) pos)) }
{
    let below = condition.depth.max(body.depth);
    match with_body(alloc, condition, body) {
        Ok(Guarded { condition, body }) => statement(
            limit,
            below,
            Stmt::While {
                condition,
                body,
                pos,
            },
            pos,
        ),
        Err(NoMemory) => Err(BuildFail::NoMemory),
    }
}

/// A `do` (JLS 14.13).
///
/// # Errors
///
/// `TooDeep` where it would be deeper than the limit.
pub fn do_statement(
    alloc: Global,
    limit: u32,
    body: Nested<Stmt>,
    condition: Nested<Expr>,
    pos: Pos,
) -> Result<Nested<Stmt>, BuildFail>
    ensures { Gives (nested_of stmt_of) result (node limit (max body.depth condition.depth) (tree.DoWhile (stmt_of body.tree) (expr_of condition.tree) pos)) }
{
    let below = body.depth.max(condition.depth);
    match with_body(alloc, condition, body) {
        Ok(Guarded { condition, body }) => statement(
            limit,
            below,
            Stmt::Do {
                body,
                condition,
                pos,
            },
            pos,
        ),
        Err(NoMemory) => Err(BuildFail::NoMemory),
    }
}

/// A `for` (JLS 14.14.1).
///
/// # Errors
///
/// `TooDeep` where it would be deeper than the limit.
pub fn for_statement(
    alloc: Global,
    limit: u32,
    start: Nested<ForStart>,
    condition: Nested<Option<Expr>>,
    updates: Nested<Vec<Expr>>,
    body: Nested<Stmt>,
    pos: Pos,
) -> Result<Nested<Stmt>, BuildFail>
    ensures { Gives (nested_of stmt_of) result (node limit (max start.depth (max condition.depth (max updates.depth body.depth))) (tree.For (for_start_of start.tree) (option_map expr_of condition.tree) (map expr_of updates.tree.items) (stmt_of body.tree) pos)) }
{
    let below = start
        .depth
        .max(condition.depth.max(updates.depth.max(body.depth)));
    match boxed_statement(alloc, body.tree) {
        Ok(body) => statement(
            limit,
            below,
            Stmt::For {
                start: start.tree,
                condition: condition.tree,
                updates: updates.tree,
                body,
                pos,
            },
            pos,
        ),
        Err(NoMemory) => Err(BuildFail::NoMemory),
    }
}

/// A variable with its initializer.
pub fn initialized(name: Name, value: Nested<Expr>) -> Nested<Variable>
    ensures { nested_of variable_of result ≡ parts.variable_node name (nested_of expr_of value) }
{
    Nested {
        tree: Variable {
            name,
            initializer: Some(value.tree),
        },
        depth: value.depth,
    }
}

/// A variable without an initializer.
pub fn plain_variable(name: Name) -> Nested<Variable>
    ensures { nested_of variable_of result ≡ parts.plain_variable_node name }
{
    Nested {
        tree: Variable {
            name,
            initializer: None,
        },
        depth: 0,
    }
}

/// A declaration of local variables (JLS 14.4).
pub fn local(
    modifiers: Nested<Vec<Modifier>>,
    typ: Typ,
    variables: Nested<Vec<Variable>>,
) -> Nested<Local>
    ensures { nested_of local_of result ≡ parts.local_node (nested_of modifiers_in modifiers) typ (nested_of variables_in variables) }
{
    let depth = modifiers.depth.max(variables.depth);
    Nested {
        tree: Local {
            modifiers: modifiers.tree,
            typ,
            variables: variables.tree,
        },
        depth,
    }
}

/// A resource of a `try` (JLS 14.20.3).
pub fn resource(
    modifiers: Nested<Vec<Modifier>>,
    class: Name,
    name: Name,
    value: Nested<Expr>,
) -> Nested<Resource>
    ensures { nested_of resource_of result ≡ parts.resource_node (nested_of modifiers_in modifiers) class name (nested_of expr_of value) }
{
    let depth = modifiers.depth.max(value.depth);
    Nested {
        tree: Resource {
            modifiers: modifiers.tree,
            class,
            name,
            value: value.tree,
        },
        depth,
    }
}

/// A catch clause (JLS 14.20), whose block is one level.
///
/// # Errors
///
/// `TooDeep` where the block as a statement would be deeper than the limit.
pub fn catch_clause(
    limit: u32,
    modifiers: Nested<Vec<Modifier>>,
    classes: Vec<Name>,
    name: Name,
    block: Nested<Block>,
) -> Result<Nested<Catch>, BuildFail>
    ensures { Gives (nested_of catch_of) result (parts.catch_node limit (nested_of modifiers_in modifiers) classes.items name (nested_of block_of block)) }
{
    let below = deeper(limit, block.depth, block.tree.pos)?;
    let depth = modifiers.depth.max(below);
    Ok(Nested {
        tree: Catch {
            modifiers: modifiers.tree,
            classes,
            name,
            block: block.tree,
        },
        depth,
    })
}

fn try_tree(
    resources: Vec<Resource>,
    block: Block,
    catches: Vec<Catch>,
    finally: Option<Block>,
    pos: Pos,
) -> Stmt
    ensures { stmt_of result ≡ tree.Try (map resource_of resources.items) (block_of block) (tree.catches (map catch_of catches.items)) (tree.maybe_block (option_map block_of finally)) pos }
{
    match finally {
        Some(last) => Stmt::Try {
            resources,
            block,
            catches,
            finally: Some(last),
            pos,
        },
        None => Stmt::Try {
            resources,
            block,
            catches,
            finally: None,
            pos,
        },
    }
}

/// A `try` without `finally` (JLS 14.20), whose block is one level.
///
/// # Errors
///
/// `TooDeep` where it, or its block as a statement, would be deeper than the limit.
pub fn try_statement(
    limit: u32,
    resources: Nested<Vec<Resource>>,
    block: Nested<Block>,
    catches: Nested<Vec<Catch>>,
    pos: Pos,
) -> Result<Nested<Stmt>, BuildFail>
    ensures { Gives (nested_of stmt_of) result (parts.try_node limit (nested_of resources_in resources) (nested_of block_of block) (nested_of catches_in catches) pos) }
{
    let inner = deeper(limit, block.depth, block.tree.pos)?;
    let below = resources.depth.max(inner.max(catches.depth));
    let tree = try_tree(resources.tree, block.tree, catches.tree, None, pos);
    statement(limit, below, tree, pos)
}

/// A `try` with `finally` (JLS 14.20.2), whose blocks are one level each.
///
/// # Errors
///
/// `TooDeep` where it, or one of its blocks as a statement, would be deeper than the limit.
pub fn try_finally_statement(
    limit: u32,
    resources: Nested<Vec<Resource>>,
    block: Nested<Block>,
    catches: Nested<Vec<Catch>>,
    last: Nested<Block>,
    pos: Pos,
) -> Result<Nested<Stmt>, BuildFail>
    ensures { Gives (nested_of stmt_of) result (parts.try_finally_node limit (nested_of resources_in resources) (nested_of block_of block) (nested_of catches_in catches) (nested_of block_of last) pos) }
{
    let inner = deeper(limit, block.depth, block.tree.pos)?;
    let end = deeper(limit, last.depth, last.tree.pos)?;
    let below = resources.depth.max(inner.max(catches.depth.max(end)));
    let tree = try_tree(
        resources.tree,
        block.tree,
        catches.tree,
        Some(last.tree),
        pos,
    );
    statement(limit, below, tree, pos)
}

/// A source file (JLS 7.3), or a section of a stub file.
pub fn unit(alloc: Global, name: Option<Name>, imports: Vec<Import>, types: Vec<ClassDecl>) -> Unit
    ensures { unit_of result ≡ parts.unit_node name imports.items (map class_of types.items) }
{
    let package = match name {
        Some(name) => name.text,
        None => Text::new(alloc),
    };
    Unit {
        package,
        imports,
        types,
    }
}
