// The body of a method that is named by its heading.

ghost use Rattle.std.specs.Prelude.{◌≡◌, IfOk};
ghost use Rattle.graph_words.specs.Names.{body_named, body_under};

use crate::names::put_heading;
use program_model::{BodyId, Method, Program};
use rlc_base::{NoMemory, Text};
use std::alloc::Global;

// The body of a method, if this is its heading.
fn body_under(
    alloc: Global,
    p: &Program,
    name: &[u8],
    method: &Method,
) -> Result<Option<BodyId>, NoMemory>
    ensures { IfOk result (λ found. found ≡ body_under p.now name.now method.now) }
{
    let mut heading = Text::new(alloc);
    put_heading(p, method, &mut heading)?;
    if heading.bytes() == name {
        Ok(method.body)
    } else {
        Ok(None)
    }
}

/// The body of the first method that has one and is named so: by its name, or a constructor by the word `new` and the last name of
/// its class.
pub fn body_named(alloc: Global, p: &Program, name: &[u8]) -> Result<Option<BodyId>, NoMemory>
    ensures { IfOk result (λ found. found ≡ body_named p.now name.now p.now.methods.items) }
{
    'each: for method in &p.methods {
        let found = body_under(alloc, p, name, method)?;
        if found.is_some() {
            return Ok(found);
        }
    }
    Ok(None)
}
