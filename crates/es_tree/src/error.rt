//! Why a program is not lowered.
ghost use Rattle.std.specs.Prelude.{◌≡◌};
ghost use Rattle.es_tree.specs.Causes.{option_name, rule_name, unsupported_name};

use crate::ids::NodeId;
use std::alloc::{AllocError, AllocFailed};
use thiserror::Error;

/// What options can ask for that no lowering does, in the order in which it is refused.
#[derive(Clone, Copy, PartialEq, Eq, Debug)]
pub enum OptionName {
    /// Helpers written into the program.
    InlineHelpers,
    /// `spec` of arrow functions.
    Spec,
    /// `loose` of object rest and spread.
    Loose,
    /// `useBuiltIns` of object rest and spread.
    UseBuiltIns,
    AsyncToGenerator,
    AsyncGeneratorFunctions,
    PureGetters,
    ObjectRestNoSymbols,
    IgnoreFunctionLength,
}

impl OptionName {
    /// Its name.
    pub fn as_str(self) -> &'static str
        ensures { result.now ≡ option_name self }
    {
        match self {
            OptionName::InlineHelpers => "InlineHelpers",
            OptionName::Spec => "Spec",
            OptionName::Loose => "Loose",
            OptionName::UseBuiltIns => "UseBuiltIns",
            OptionName::AsyncToGenerator => "AsyncToGenerator",
            OptionName::AsyncGeneratorFunctions => "AsyncGeneratorFunctions",
            OptionName::PureGetters => "PureGetters",
            OptionName::ObjectRestNoSymbols => "ObjectRestNoSymbols",
            OptionName::IgnoreFunctionLength => "IgnoreFunctionLength",
        }
    }
}

/// A rule that every program keeps: the early errors of ECMA-262 that are tested, in the order of the
/// answer at one node.
#[derive(Clone, Copy, PartialEq, Eq, Debug)]
pub enum Rule {
    /// A name that its scope already declares (8.2, 14.2.1, 14.3, 15.1.1, 16.1.1).
    DuplicateName,
    /// A `break` or `continue` whose label doesn't enclose it (14.8.1, 14.9.1).
    MissingLabel,
    /// A label inside a statement with the same label (14.13.1).
    DuplicateLabel,
    /// A `return` outside a function (14.10).
    MisplacedReturn,
    /// A `super` outside a method, or a `super()` outside a derived constructor (13.3.7, 15.7.1).
    MisplacedSuper,
    /// An assignment or update target that can't be assigned (13.4.1, 13.15.1).
    BadTarget,
    /// A chain without an optional mark (13.3.9).
    EmptyChain,
    /// An optional mark outside a chain (13.3.9).
    StrayOptional,
    /// `delete` of a plain name or of a private member (13.5.1.1).
    DeleteName,
    /// A `const`, `using` or pattern declarator without a value (14.3.1.1, 14.3.2).
    MissingInit,
    /// `using` where it can't stand (Explicit Resource Management).
    BadUsing,
    /// A for-in or for-of declaration with other than one declarator, or with a value (14.7.5).
    BadFor,
    /// An import or export that isn't at a module's top (16.2).
    MisplacedModuleItem,
    /// An export that has no meaning (16.2.3.1).
    BadExport,
    /// A class with a member that has no meaning (15.7.1).
    BadClass,
    /// A getter with parameters, or a setter with other than one (15.4).
    BadAccessor,
    /// The argument of an object rest that isn't a name or a member (13.15.5, 14.3.3).
    BadRest,
    /// A declaration as the body of `if`, a loop or a label (14).
    MisplacedDeclaration,
    /// `new.target` outside a function, or `import.meta` in a script (13.3.12.1).
    MisplacedMeta,
}

impl Rule {
    /// Its name.
    pub fn as_str(self) -> &'static str
        ensures { result.now ≡ rule_name self }
    {
        match self {
            Rule::DuplicateName => "DuplicateName",
            Rule::MissingLabel => "MissingLabel",
            Rule::DuplicateLabel => "DuplicateLabel",
            Rule::MisplacedReturn => "MisplacedReturn",
            Rule::MisplacedSuper => "MisplacedSuper",
            Rule::BadTarget => "BadTarget",
            Rule::EmptyChain => "EmptyChain",
            Rule::StrayOptional => "StrayOptional",
            Rule::DeleteName => "DeleteName",
            Rule::MissingInit => "MissingInit",
            Rule::BadUsing => "BadUsing",
            Rule::BadFor => "BadFor",
            Rule::MisplacedModuleItem => "MisplacedModuleItem",
            Rule::BadExport => "BadExport",
            Rule::BadClass => "BadClass",
            Rule::BadAccessor => "BadAccessor",
            Rule::BadRest => "BadRest",
            Rule::MisplacedDeclaration => "MisplacedDeclaration",
            Rule::MisplacedMeta => "MisplacedMeta",
        }
    }
}

/// A program that no lowering can rewrite, in the order of the answer at one node.
#[derive(Clone, Copy, PartialEq, Eq, Debug)]
pub enum UnsupportedKind {
    /// A construct that is to be lowered, and whose lowering isn't built yet.
    NotBuilt,
    /// `**` where the program declares `Math`.
    MathBound,
    /// A helper is needed where the program declares its name.
    HelperName,
    /// An object rest below an array pattern or a rest element.
    RestInArray,
    /// An object rest below another pattern of an assignment target.
    RestNested,
    /// A parameter with an object rest whose names later ones can see.
    RestParameter,
    /// A loop whose head is moved, and whose right side holds a name of the head.
    HeadName,
    /// A spread beside `__proto__` or a method that uses `super`.
    SpreadLiteral,
    /// A tagged template whose tag is a chain.
    TagChain,
    /// A function beside a `using` whose name something else declares.
    UsingFunction,
    /// `arguments`, `new.target` or `super` inside a lowered arrow.
    ArrowOuter,
    /// A `this` inside a lowered arrow in a class field or in parameters, or a call of `super` in parameters of a constructor in whose
    /// body one stands.
    ArrowThis,
}

impl UnsupportedKind {
    /// Its name.
    pub fn as_str(self) -> &'static str
        ensures { result.now ≡ unsupported_name self }
    {
        match self {
            UnsupportedKind::NotBuilt => "NotBuilt",
            UnsupportedKind::MathBound => "MathBound",
            UnsupportedKind::HelperName => "HelperName",
            UnsupportedKind::RestInArray => "RestInArray",
            UnsupportedKind::RestNested => "RestNested",
            UnsupportedKind::RestParameter => "RestParameter",
            UnsupportedKind::HeadName => "HeadName",
            UnsupportedKind::SpreadLiteral => "SpreadLiteral",
            UnsupportedKind::TagChain => "TagChain",
            UnsupportedKind::UsingFunction => "UsingFunction",
            UnsupportedKind::ArrowOuter => "ArrowOuter",
            UnsupportedKind::ArrowThis => "ArrowThis",
        }
    }
}

/// The cause of a refusal. The message of each variant is the variant's name.
#[derive(Debug, Drop, Error)]
pub enum LowerError {
    /// The bytes have no reading as a JSON value.
    #[error("Json")]
    Json,
    /// The options ask for what isn't done.
    #[error("Option")]
    Option(OptionName),
    /// The value has this many JSON objects, at least 2^20.
    #[error("TooLarge")]
    TooLarge(u64),
    /// The value is nested this deep, more than 400.
    #[error("TooDeep")]
    TooDeep(u64),
    /// The value has no form at this place, a JSON pointer (RFC 6901).
    #[error("Shape")]
    Shape(String),
    /// The program breaks this rule at this node.
    #[error("Invalid")]
    Invalid(Rule, NodeId),
    /// No lowering can rewrite this node.
    #[error("Unsupported")]
    Unsupported(UnsupportedKind, NodeId),
    /// There was no memory. It may come at any point.
    #[error("OutOfMemory")]
    OutOfMemory,
}

impl From<AllocError> for LowerError {
    ghost use Rattle.es_tree.specs.declared.error.LowerError.TheVariants.{OutOfMemory};

    ghost from_gives = { λ _ e. e ≡ OutOfMemory };

    fn from(_error: AllocError) -> LowerError {
        LowerError::OutOfMemory
    }
}

impl<T: Drop> From<AllocFailed<T>> for LowerError {
    ghost use Rattle.es_tree.specs.declared.error.LowerError.TheVariants.{OutOfMemory};

    ghost from_gives = { λ _ e. e ≡ OutOfMemory };

    fn from(_error: AllocFailed<T>) -> LowerError {
        LowerError::OutOfMemory
    }
}
