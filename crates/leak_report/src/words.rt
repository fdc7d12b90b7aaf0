// The words of a report.

ghost use Rattle.std.specs.Prelude.{◌≡◌, ◌++◌, option_map, OnOk};
ghost use Rattle.leak_report.specs.Words.{action_word, edge_text, origin_word, rule_word};

use control_actions::{Action, Edge, OriginKind, Rule};
use program_model::Program;
use program_texts::put_class;
use rlc_base::{NoMemory, Text};

// The name of a rule.
pub(crate) fn rule_word(rule: Rule) -> &'static [u8]
    ensures { result.now ≡ rule_word rule }
{
    match rule {
        Rule::Lost => b"lost",
        Rule::Exit => b"exit",
        Rule::Throw => b"throw",
        Rule::Overwritten => b"overwritten",
        Rule::NotOwned => b"not.owned",
        Rule::ResetNotOwned => b"reset.not.owned",
        Rule::Narrow => b"narrow",
        Rule::Ensures => b"ensures",
        Rule::AliasKept => b"alias.kept",
        Rule::Twice => b"twice",
        Rule::CalledMissing => b"called.missing",
        Rule::CtorThrow => b"ctor.throw",
        Rule::ResetMissing => b"reset.missing",
    }
}

// How an obligation began.
pub(crate) fn origin_word(kind: OriginKind) -> &'static [u8]
    ensures { result.now ≡ origin_word kind }
{
    match kind {
        OriginKind::Param(_) => b"param",
        OriginKind::ThisRef => b"this",
        OriginKind::FieldAt(_) => b"field",
        OriginKind::New => b"new",
        OriginKind::Result => b"result",
        OriginKind::Read => b"read",
        OriginKind::SuperPart => b"super",
    }
}

// The word of a step; a step that does nothing has none.
pub(crate) fn action_word(action: Action) -> Option<&'static [u8]>
    ensures { option_map (λ word. word.now) result ≡ action_word action }
{
    match action {
        Action::Skip => None,
        Action::Copy(_, _) | Action::Move(_, _) => Some(b"set"),
        Action::Plain(_, _) => Some(b"plain"),
        Action::Drop(_) => Some(b"drop"),
        Action::Settle(_, _) => Some(b"settle"),
        Action::Enter(_, _, _, _) => Some(b"catch"),
        Action::Test(_) => Some(b"test"),
        Action::Op(_, _, _) => Some(b"op"),
        Action::Get(_, _, _) => Some(b"get"),
        Action::Put(_, _, _) => Some(b"put"),
        Action::Cast(_, _) => Some(b"cast"),
        Action::PutOwn(_, _) => Some(b"own"),
        Action::Call(_, _, _, _) => Some(b"call"),
        Action::New(_, _, _) => Some(b"new"),
        Action::Super(_, _, _) => Some(b"super"),
        Action::Raise(_, _) => Some(b"raise"),
        Action::End(_) => Some(b"end"),
    }
}

// Puts the way by which a step goes on.
pub(crate) fn put_edge(p: &Program, edge: Edge, into: &mut Text) -> Result<(), NoMemory>
    ensures { OnOk result (into.new ≡ into.old ++ edge_text p.now edge) }
{
    match edge {
        Edge::Go => into.push_bytes(b"go"),
        Edge::Null => into.push_bytes(b"null"),
        Edge::NonNull => into.push_bytes(b"nonnull"),
        Edge::True => into.push_bytes(b"true"),
        Edge::False => into.push_bytes(b"false"),
        Edge::Throws(class) => {
            into.push_bytes(b"throws ")?;
            put_class(p, class, into)
        }
    }
}
