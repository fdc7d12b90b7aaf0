//! The table of refusals: each code with its name, and which of them are limits.

ghost use Rattle.std.specs.Prelude.{◌≡◌};
ghost use Rattle.rlc_base.specs.Codes.{is_limit, name_of, number_of, stop_of};

use crate::faults::{Refusal, Stop};

/// Why an input is refused, by the product's own table of codes.
#[derive(Clone, Copy, Debug, PartialEq, Eq)]
pub enum Code {
    /// 10: a byte begins no token, or the file is not UTF-8 there.
    BadByte,
    /// 11: a `/*` has no `*/` (JLS 3.7).
    OpenComment,
    /// 12: a string or character literal is not closed on its line (JLS 3.10.4, 3.10.5).
    OpenText,
    /// 13: a literal is none of the subset's (JLS 3.10).
    BadLiteral,
    /// 14: a reserved word that the subset does not use (JLS 3.9).
    LeftOutWord,
    /// 20: no sentence of the grammar goes on with the token.
    Syntax,
    /// 30: two classes have one qualified name.
    DoubleClass,
    /// 31: a type name outside bodies and field initialisers names no class, or two.
    UnknownType,
    /// 32: a class is above itself (JLS 8.1.4).
    CyclicSupers,
    /// 33: two members of one class have one name, and methods and constructors one parameter list (JLS 8.2, 8.4.2).
    DoubleMember,
    /// 34: a super type or a class of a throws clause is of the wrong kind (JLS 8.1.4, 8.1.5, 8.4.6).
    BadSuper,
    /// 40: a name in a body or field initialiser names nothing there (JLS 6.5).
    NoSuchName,
    /// 41: no method or constructor is applicable (JLS 15.12.2).
    NoSuchMethod,
    /// 42: no applicable method or constructor is most specific (JLS 15.12.2.5).
    Ambiguous,
    /// 43: an expression or statement has no type (JLS 14, 15).
    Mismatch,
    /// 44: a checked exception is neither caught nor declared (JLS 11.2).
    UndeclaredException,
    /// 45: an override differs in its result, throws clause, `static` or `final` (JLS 8.4.8).
    BadOverride,
    /// 46: a method without a body is inherited, called or made an object of (JLS 8.1.1.1, 15.9.1).
    NotAbstract,
    /// 50: an annotation stands at a wrong place, twice, or with a wrong value.
    BadAnno,
    /// 51: a must-call set has a name that is no fitting method of its class.
    NoSuchMustCall,
    /// 52: resource aliases do not fit.
    BadAlias,
    /// 53: an override changes who owns what, or what is promised.
    BadOwningOverride,
    /// 54: no method promises what an owning field must have called.
    NoFinalizer,
    /// 55: an owning field is of the wrong shape.
    OwningFieldShape,
    /// 56: a method that creates an obligation anew does not fit.
    BadReset,
    /// 57: the must-call set of a super class does not lie within that of the class.
    SmallSet,
    /// 60: a file is longer than 1,048,576 bytes.
    FileTooBig,
    /// 61: a statement, expression, annotation or annotation value stands at level 128 or more.
    TooDeep,
    /// 62: more than 4,096 classes.
    TooManyClasses,
    /// 63: a body has more than 65,536 controls.
    MethodTooLarge,
    /// 64: a body has too many variables, owning fields or temps.
    TooManyPlaces,
    /// 65: a body has more than 1,000,000 pairs of control and fact.
    TooManyFacts,
    /// 66: more than 256 files.
    TooManyFiles,
    /// 67: more than 16,777,216 bytes in all files.
    TooMuchText,
    /// 68: more than 128 names in must-call sets, promises and preconditions.
    TooManyNames,
    /// 69: more than 10,000 faults.
    TooManyFaults,
    /// 70: the settings are no TOML document.
    BadToml,
    /// 71: the settings have another key, or a value of another type.
    BadKey,
    /// 72: the version of the settings is absent or unknown.
    BadVersion,
    /// 73: a line of the choices file is malformed.
    BadChoices,
    /// 74: there is no such class with a `main`.
    NoMain,
    /// 80: the text is no certificate.
    BadCert,
    /// 81: a certificate does not cover a step.
    CertOpen,
    /// 82: a certificate is longer than 67,108,864 bytes.
    CertTooBig,
    /// 83: a line of the script of edits is malformed.
    BadScript,
    /// 84: the script has more than 100 edits.
    TooManyEdits,
}

impl Code {
    /// The number of the code, from 10 to 84.
    pub fn number(self) -> u16
        ensures { result ≡ number_of self }
    {
        match self {
            Code::BadByte => 10,
            Code::OpenComment => 11,
            Code::OpenText => 12,
            Code::BadLiteral => 13,
            Code::LeftOutWord => 14,
            Code::Syntax => 20,
            Code::DoubleClass => 30,
            Code::UnknownType => 31,
            Code::CyclicSupers => 32,
            Code::DoubleMember => 33,
            Code::BadSuper => 34,
            Code::NoSuchName => 40,
            Code::NoSuchMethod => 41,
            Code::Ambiguous => 42,
            Code::Mismatch => 43,
            Code::UndeclaredException => 44,
            Code::BadOverride => 45,
            Code::NotAbstract => 46,
            Code::BadAnno => 50,
            Code::NoSuchMustCall => 51,
            Code::BadAlias => 52,
            Code::BadOwningOverride => 53,
            Code::NoFinalizer => 54,
            Code::OwningFieldShape => 55,
            Code::BadReset => 56,
            Code::SmallSet => 57,
            Code::FileTooBig => 60,
            Code::TooDeep => 61,
            Code::TooManyClasses => 62,
            Code::MethodTooLarge => 63,
            Code::TooManyPlaces => 64,
            Code::TooManyFacts => 65,
            Code::TooManyFiles => 66,
            Code::TooMuchText => 67,
            Code::TooManyNames => 68,
            Code::TooManyFaults => 69,
            Code::BadToml => 70,
            Code::BadKey => 71,
            Code::BadVersion => 72,
            Code::BadChoices => 73,
            Code::NoMain => 74,
            Code::BadCert => 80,
            Code::CertOpen => 81,
            Code::CertTooBig => 82,
            Code::BadScript => 83,
            Code::TooManyEdits => 84,
        }
    }

    /// The name that stands beside the number in every report.
    pub fn name(self) -> &'static str
        ensures { result.now ≡ name_of self }
    {
        match self {
            Code::BadByte => "BadByte",
            Code::OpenComment => "OpenComment",
            Code::OpenText => "OpenText",
            Code::BadLiteral => "BadLiteral",
            Code::LeftOutWord => "LeftOutWord",
            Code::Syntax => "Syntax",
            Code::DoubleClass => "DoubleClass",
            Code::UnknownType => "UnknownType",
            Code::CyclicSupers => "CyclicSupers",
            Code::DoubleMember => "DoubleMember",
            Code::BadSuper => "BadSuper",
            Code::NoSuchName => "NoSuchName",
            Code::NoSuchMethod => "NoSuchMethod",
            Code::Ambiguous => "Ambiguous",
            Code::Mismatch => "Mismatch",
            Code::UndeclaredException => "UndeclaredException",
            Code::BadOverride => "BadOverride",
            Code::NotAbstract => "NotAbstract",
            Code::BadAnno => "BadAnno",
            Code::NoSuchMustCall => "NoSuchMustCall",
            Code::BadAlias => "BadAlias",
            Code::BadOwningOverride => "BadOwningOverride",
            Code::NoFinalizer => "NoFinalizer",
            Code::OwningFieldShape => "OwningFieldShape",
            Code::BadReset => "BadReset",
            Code::SmallSet => "SmallSet",
            Code::FileTooBig => "FileTooBig",
            Code::TooDeep => "TooDeep",
            Code::TooManyClasses => "TooManyClasses",
            Code::MethodTooLarge => "MethodTooLarge",
            Code::TooManyPlaces => "TooManyPlaces",
            Code::TooManyFacts => "TooManyFacts",
            Code::TooManyFiles => "TooManyFiles",
            Code::TooMuchText => "TooMuchText",
            Code::TooManyNames => "TooManyNames",
            Code::TooManyFaults => "TooManyFaults",
            Code::BadToml => "BadToml",
            Code::BadKey => "BadKey",
            Code::BadVersion => "BadVersion",
            Code::BadChoices => "BadChoices",
            Code::NoMain => "NoMain",
            Code::BadCert => "BadCert",
            Code::CertOpen => "CertOpen",
            Code::CertTooBig => "CertTooBig",
            Code::BadScript => "BadScript",
            Code::TooManyEdits => "TooManyEdits",
        }
    }

    /// Whether the code is that of a limit that is passed, and not of a rule that is broken.
    pub fn is_limit(self) -> bool
        ensures { result ≡ is_limit self }
    {
        match self {
            Code::FileTooBig
            | Code::TooDeep
            | Code::TooManyClasses
            | Code::MethodTooLarge
            | Code::TooManyPlaces
            | Code::TooManyFacts
            | Code::TooManyFiles
            | Code::TooMuchText
            | Code::TooManyNames
            | Code::TooManyFaults
            | Code::CertTooBig
            | Code::TooManyEdits => true,
            Code::BadByte
            | Code::OpenComment
            | Code::OpenText
            | Code::BadLiteral
            | Code::LeftOutWord
            | Code::Syntax
            | Code::DoubleClass
            | Code::UnknownType
            | Code::CyclicSupers
            | Code::DoubleMember
            | Code::BadSuper
            | Code::NoSuchName
            | Code::NoSuchMethod
            | Code::Ambiguous
            | Code::Mismatch
            | Code::UndeclaredException
            | Code::BadOverride
            | Code::NotAbstract
            | Code::BadAnno
            | Code::NoSuchMustCall
            | Code::BadAlias
            | Code::BadOwningOverride
            | Code::NoFinalizer
            | Code::OwningFieldShape
            | Code::BadReset
            | Code::SmallSet
            | Code::BadToml
            | Code::BadKey
            | Code::BadVersion
            | Code::BadChoices
            | Code::NoMain
            | Code::BadCert
            | Code::CertOpen
            | Code::BadScript => false,
        }
    }
}

impl Refusal {
    /// The stop by this refusal: past a limit where the code is that of a limit.
    pub fn stop(self) -> Stop
        ensures { result ≡ stop_of self }
    {
        if self.code.is_limit() {
            Stop::TooMuch(self)
        } else {
            Stop::Refused(self)
        }
    }
}
