ghost use Rattle.std.specs.Prelude.{◌≡◌, map};
ghost use Rattle.java_syntax.specs.ExpressionTrees.{expr_of};
ghost use Rattle.java_syntax.specs.AnnotationTrees as annotation;
ghost use Rattle.java_syntax.specs.AnnotationTrees.{anno_of, anno_value_of, argument_of, modifier_of};
ghost use Rattle.java_values.specs.NestedTrees.{nested_of, arguments_in, anno_values_in};
ghost use Rattle.java_values.specs.Outcomes.{Gives, node};
ghost use Rattle.java_nodes.specs.StatementParts as parts;

use java_syntax::{Anno, AnnoArgument, AnnoValue, Expr, Modifier, Name};
use java_values::{BuildFail, Nested, deeper, place_of};
use rlc_base::Pos;

fn annotation_tree(name: Name, arguments: Vec<AnnoArgument>, pos: Pos) -> Anno
    ensures { annotation.anno_of result ≡ annotation.Annotation name (annotation.arguments (map annotation.argument_of arguments.items)) pos }
{
    Anno {
        name,
        arguments,
        pos,
    }
}

/// An annotation (JLS 9.7), one level deeper than its values.
///
/// # Errors
///
/// `TooDeep` where it would be deeper than the limit.
pub fn annotation(
    limit: u32,
    name: Name,
    arguments: Nested<Vec<AnnoArgument>>,
    pos: Pos,
) -> Result<Nested<Anno>, BuildFail>
    ensures { Gives (nested_of anno_of) result (parts.annotation_node limit name (nested_of arguments_in arguments) pos) }
{
    let tree = annotation_tree(name, arguments.tree, pos);
    match deeper(limit, arguments.depth, pos) {
        Ok(depth) => Ok(Nested { tree, depth }),
        Err(fail) => {
            drop(tree);
            Err(fail)
        }
    }
}

/// An argument of an annotation, with its name where one is written.
pub fn argument(key: Option<Name>, value: Nested<AnnoValue>) -> Nested<AnnoArgument>
    ensures { nested_of argument_of result ≡ parts.argument_node key (nested_of anno_value_of value) }
{
    Nested {
        tree: AnnoArgument {
            key,
            value: value.tree,
        },
        depth: value.depth,
    }
}

/// The value, one level deeper than its parts.
fn value_node(
    limit: u32,
    below: u32,
    tree: AnnoValue,
    pos: Pos,
) -> Result<Nested<AnnoValue>, BuildFail>
    ensures { Gives (nested_of anno_value_of) result (node limit below (anno_value_of tree)) }
{
    match deeper(limit, below, pos) {
        Ok(depth) => Ok(Nested { tree, depth }),
        Err(fail) => {
            drop(tree);
            Err(fail)
        }
    }
}

fn expression_tree(e: Expr) -> AnnoValue
    ensures { annotation.anno_value_of result ≡ annotation.ExpressionValue (expr_of e) }
{
    AnnoValue::Expression(e)
}

/// An expression as a value, one level deeper.
///
/// # Errors
///
/// `TooDeep` where it would be deeper than the limit.
pub fn expression_value(limit: u32, e: Nested<Expr>) -> Result<Nested<AnnoValue>, BuildFail>
    ensures { Gives (nested_of anno_value_of) result (parts.expression_value_node limit (nested_of expr_of e)) }
{
    let pos = place_of(&e.tree);
    value_node(limit, e.depth, expression_tree(e.tree), pos)
}

/// An annotation as a value, one level deeper.
///
/// # Errors
///
/// `TooDeep` where it would be deeper than the limit.
pub fn annotation_as_value(limit: u32, a: Nested<Anno>) -> Result<Nested<AnnoValue>, BuildFail>
    ensures { Gives (nested_of anno_value_of) result (parts.annotation_value_node limit (nested_of anno_of a)) }
{
    let pos = a.tree.pos;
    value_node(limit, a.depth, AnnoValue::Annotation(a.tree), pos)
}

/// Values in braces as one value, one level deeper.
///
/// # Errors
///
/// `TooDeep` where it would be deeper than the limit.
pub fn values_as_value(
    limit: u32,
    values: Nested<Vec<AnnoValue>>,
    pos: Pos,
) -> Result<Nested<AnnoValue>, BuildFail>
    ensures { Gives (nested_of anno_value_of) result (parts.list_value_node limit (nested_of anno_values_in values) pos) }
{
    let tree = AnnoValue::List {
        values: values.tree,
        pos,
    };
    value_node(limit, values.depth, tree, pos)
}

/// An annotation among modifiers.
pub fn modifier(a: Nested<Anno>) -> Nested<Modifier>
    ensures { nested_of modifier_of result ≡ parts.modifier_node (nested_of anno_of a) }
{
    Nested {
        tree: Modifier::Annotation(a.tree),
        depth: a.depth,
    }
}

/// A modifier word, which has no level.
pub fn word(modifier: Modifier) -> Nested<Modifier>
    ensures { nested_of modifier_of result ≡ parts.word_node (modifier_of modifier) }
{
    Nested {
        tree: modifier,
        depth: 0,
    }
}

/// The place of an annotation.
pub fn place_of_annotation(annotation: &Anno) -> Pos
    ensures { result ≡ parts.place_of_annotation (anno_of annotation.now) }
{
    annotation.pos
}
