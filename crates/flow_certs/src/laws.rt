//! What a certificate says of its program. Each law is the contract of a function that does nothing.

ghost use Rattle.std.specs.Prelude.{◌<◌, ℕ, List};
ghost use Rattle.rlc_base.specs.declared.faults.Stop.TheVariants as stops;
ghost use Rattle.body_origins.specs.Paths.{Faulty, relation_of};
ghost use Rattle.java_cfg.specs.Limits.{PassesLimit};
ghost use Rattle.obligation_facts.specs.Facts.{Names};
ghost use Rattle.flow_certs.specs.Causes.{IsCertificateStop};
ghost use Rattle.flow_certs.specs.Certificates.{IsCertificate};
ghost use Rattle.flow_certs.specs.Forms.{body_count};

use control_actions::{Origin, Rule};
use program_model::{BodyId, Program};
use rlc_base::{Pos, Refusal};

/// No path through a body of a program with a certificate breaks a rule, whoever made the certificate.
pub fn certified_is_faultless()
    ensures { (p : Program) (bytes : List ℕ) (b : BodyId) (o : Origin) (rule : Rule) (at : Pos) (names : Names) → IsCertificate p bytes
        → Faulty p b (relation_of p b) o rule at names → ⊥ }
{}

/// The bodies of a program with a certificate pass no limit on controls and places.
pub fn certified_passes_no_limit()
    ensures { (p : Program) (bytes : List ℕ) (b : BodyId) (r : Refusal) → IsCertificate p bytes → b.0 < body_count p → PassesLimit p b r → ⊥ }
{}

/// A certificate is not refused.
pub fn certificate_is_taken()
    ensures refused { (p : Program) (file : ℕ) (bytes : List ℕ) (r : Refusal) → IsCertificate p bytes → IsCertificateStop p file bytes (stops.Refused r) → ⊥ }
    ensures limited { (p : Program) (file : ℕ) (bytes : List ℕ) (r : Refusal) → IsCertificate p bytes → IsCertificateStop p file bytes (stops.TooMuch r) → ⊥ }
{}
