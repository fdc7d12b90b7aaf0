//! The order of faults.

ghost use Rattle.std.specs.Prelude.{◌≡◌, ◌<◌, ◌^◌};
ghost use Rattle.std.specs.Ordering.{nat_cmp};
ghost use Rattle.fault_order.specs.Order.{kind_number, order_number, place_number, rule_number, step_number};

use crate::fault::FaultAt;
use control_actions::{OriginKind, Rule};
use program_model::FieldId;
use rlc_base::Pos;
use std::cmp::Ordering;

// A place as a number, in the order of files, lines and columns.
fn place_number(pos: Pos) -> u128
    ensures value { result ≡ place_number pos }
    ensures small { result < 2 ^ 96 }
{
    (u128::from(pos.file) * 0x1_0000_0000 + u128::from(pos.line)) * 0x1_0000_0000
        + u128::from(pos.col)
}

// The place of a rule in the order of rules.
fn rule_number(rule: Rule) -> u128
    ensures value { result ≡ rule_number rule }
    ensures small { result < 16 }
{
    match rule {
        Rule::Lost => 0,
        Rule::Exit => 1,
        Rule::Throw => 2,
        Rule::Overwritten => 3,
        Rule::NotOwned => 4,
        Rule::ResetNotOwned => 5,
        Rule::Narrow => 6,
        Rule::Ensures => 7,
        Rule::AliasKept => 8,
        Rule::Twice => 9,
        Rule::CalledMissing => 10,
        Rule::CtorThrow => 11,
        Rule::ResetMissing => 12,
    }
}

// The kinds of origins in their order, parameters and fields by their numbers.
fn kind_number(kind: OriginKind) -> u64
    ensures value { result ≡ kind_number kind }
    ensures small { result < 2 ^ 35 }
{
    match kind {
        OriginKind::Param(number) => u64::from(number),
        OriginKind::ThisRef => 0x1_0000_0000,
        OriginKind::FieldAt(FieldId(number)) => 0x2_0000_0000 + u64::from(number),
        OriginKind::New => 0x3_0000_0000,
        OriginKind::Result => 0x4_0000_0000,
        OriginKind::Read => 0x5_0000_0000,
        OriginKind::SuperPart => 0x6_0000_0000,
    }
}

// The place and the rule of a fault as a number.
fn step_number(fault: &FaultAt) -> u128
    ensures { result ≡ step_number fault.now }
{
    place_number(fault.at) * 16 + rule_number(fault.rule)
}

/// Compares faults by their places, then by their rules, and then by the places and the kinds of their origins. Places are
/// in the order of files, lines and columns; parameters and fields are in the order of their numbers.
pub fn compare_faults(one: &FaultAt, other: &FaultAt) -> Ordering
    ensures { result ≡ nat_cmp (order_number one.now) (order_number other.now) }
{
    let step = step_number(one).cmp(&step_number(other));
    let place = place_number(one.origin.pos).cmp(&place_number(other.origin.pos));
    let kind = kind_number(one.origin.kind).cmp(&kind_number(other.origin.kind));
    step.then(place).then(kind)
}
