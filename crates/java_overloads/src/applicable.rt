//! Methods that are applicable by strict invocation (JLS 15.12.2.2).

ghost use Rattle.std.specs.Prelude.{◌≡◌, IfOk};
ghost use Rattle.program_model.specs.Lookups.{method_at};
ghost use Rattle.java_overloads.specs.Overloads.{applicable, each_fits, takes};

use java_conversions::fits;
use program_model::{MethodId, ParamSig, Program, VType};
use rlc_base::NoMemory;
use std::alloc::Global;

fn each_fits(p: &Program, arguments: &[VType], params: &[ParamSig]) -> bool
    ensures { result ≡ each_fits p.now arguments.now params.now }
{
    arguments
        .iter()
        .zip(params)
        .all(|x| fits(p, *x.0, x.1.vtype))
}

fn takes(p: &Program, arguments: &[VType], method: MethodId) -> bool
    ensures { result ≡ takes p.now arguments.now (method_at p.now method) }
{
    match p.method(method) {
        None => false,
        Some(m) => {
            arguments.len() == m.sig.params.len() && each_fits(p, arguments, &m.sig.params)
        }
    }
}

pub(crate) fn applicable(
    alloc: Global,
    p: &Program,
    candidates: &[MethodId],
    arguments: &[VType],
) -> Result<Vec<MethodId>, NoMemory>
    ensures { IfOk result (λ v. v.items ≡ applicable p.now candidates.now arguments.now) }
{
    Ok(
        candidates
            .iter()
            .copied()
            .filter(|m| takes(p, arguments, *m))
            .collect(alloc)?,
    )
}
