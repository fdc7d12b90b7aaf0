//! The certificate of a program.

ghost use Rattle.std.specs.Prelude.{◌≡◌, IfErr, IfOk};
ghost use Rattle.flow_rules.specs.WellFormed.{HasSmallInterests};
ghost use Rattle.program_faults.specs.ListedFields.{HasListedFields};
ghost use Rattle.program_faults.specs.ProgramReports.{IsFaultStop};
ghost use Rattle.certificates.specs.Certified.{IsCertified, IsVerdict, IsWritten};
ghost use Rattle.rlc_base.specs.declared.faults.Stop.TheVariants as stops;

use crate::bodies::put_body;
use crate::sheet::{MAX_CERTIFICATE, Sheet};
use fact_pool::Pool;
use flow_certs::check_cert;
use program_model::{BodyId, Program};
use rlc_base::{Stop, Text};
use std::alloc::Global;

/// What is said of a program whose certificate is asked for.
#[derive(Drop)]
pub enum Certified {
    /// No path in a body breaks a rule, and the text is a certificate.
    Written(Text),
    /// No path in a body breaks a rule, and the certificate is longer than 67,108,864 bytes.
    TooLong,
    /// A path in a body breaks a rule.
    Faulty,
}

// Puts the parts of all bodies, where no path breaks a rule. Answers whether none does.
fn put_bodies(alloc: Global, p: &Program, sheet: &mut Sheet) -> Result<bool, Stop>
    requires interests { HasSmallInterests p.now }
    requires fields { HasListedFields p.now }
    ensures verdict { IfOk result (IsVerdict p.now) }
    ensures cause { IfErr result (IsFaultStop p.now) }
{
    let Ok(bodies) = u32::try_from(p.bodies.len()) else {
        return Err(Stop::NoMemory);
    };
    let mut pool = Pool::new(alloc);
    'bodies: for number in 0..bodies {
        if !put_body(alloc, p, BodyId(number), &mut pool, sheet)? {
            return Ok(false);
        }
    }
    Ok(true)
}

// The text of a program of which no path breaks a rule, once it was checked.
fn checked(alloc: Global, p: &Program, sheet: Sheet) -> Result<Certified, Stop>
    requires interests { HasSmallInterests p.now }
    requires fields { HasListedFields p.now }
    ensures written { IfOk result (IsWritten p.now) }
    ensures cause { IfErr result (λ stop. stop ≡ stops.NoMemory) }
{
    let Some(text) = sheet.into_text() else {
        return Ok(Certified::TooLong);
    };
    if text.bytes().len() > MAX_CERTIFICATE {
        return Ok(Certified::TooLong);
    }
    match check_cert(alloc, p, 0, text.bytes()) {
        Ok(()) => Ok(Certified::Written(text)),
        Err(Stop::Refused(_) | Stop::TooMuch(_) | Stop::NoMemory) => Err(Stop::NoMemory),
    }
}

/// The certificate of a program: for each body the pairs of a node and a fact that paths reach, by node and then by the bytes of the
/// line. The text is checked before it is answered, so it is a certificate, whatever the search did.
///
/// # Errors
///
/// `TooMuch` for the first body that passes a limit, with the place of its method, where no path in the bodies before it breaks a rule:
/// code 63, 64 or 65. `NoMemory` where memory runs out, for which 4,294,967,296 bodies or more count too, and a text that the check does
/// not take; no program is known to bring this about.
pub fn write_cert(alloc: Global, p: &Program) -> Result<Certified, Stop>
    requires interests { HasSmallInterests p.now }
    requires fields { HasListedFields p.now }
    ensures certified { IfOk result (IsCertified p.now) }
    ensures cause { IfErr result (IsFaultStop p.now) }
{
    let mut sheet = Sheet::new(alloc);
    sheet.put(b"rlc-cert 1\n")?;
    if !put_bodies(alloc, p, &mut sheet)? {
        return Ok(Certified::Faulty);
    }
    sheet.put(b"end\n")?;
    checked(alloc, p, sheet)
}
