//! Functions of the runtime that lowered programs call.
ghost use Rattle.std.specs.Prelude.{◌≡◌};
ghost use Rattle.es_tree.specs.Helpers.{helper_text, is_pure};

/// A function of the runtime.
#[derive(Clone, Copy, PartialEq, Eq, PartialOrd, Ord, Hash, Debug)]
pub enum Helper {
    AwaitAsyncGenerator,
    AsyncGeneratorDelegate,
    AsyncIterator,
    AsyncToGenerator,
    ObjectSpread2,
    WrapAsyncGenerator,
    Extends,
    ObjectDestructuringEmpty,
    ObjectWithoutProperties,
    ToPropertyKey,
    DefineProperty,
    ClassPrivateFieldInitSpec,
    ClassPrivateMethodInitSpec,
    ClassPrivateFieldGet2,
    ClassPrivateFieldSet2,
    AssertClassBrand,
    ToSetter,
    ClassPrivateFieldLooseKey,
    ClassPrivateFieldLooseBase,
    SuperPropGet,
    SuperPropSet,
    ReadOnlyError,
    WriteOnlyError,
    CheckInRHS,
    Decorate,
    DecorateParam,
    DecorateMetadata,
    UsingCtx,
    TaggedTemplateLiteral,
    SetFunctionName,
}

impl Helper {
    /// Its name in the runtime.
    pub fn name(self) -> &'static str
        ensures { result.now ≡ helper_text self }
    {
        match self {
            Helper::AwaitAsyncGenerator => "awaitAsyncGenerator",
            Helper::AsyncGeneratorDelegate => "asyncGeneratorDelegate",
            Helper::AsyncIterator => "asyncIterator",
            Helper::AsyncToGenerator => "asyncToGenerator",
            Helper::ObjectSpread2 => "objectSpread2",
            Helper::WrapAsyncGenerator => "wrapAsyncGenerator",
            Helper::Extends => "extends",
            Helper::ObjectDestructuringEmpty => "objectDestructuringEmpty",
            Helper::ObjectWithoutProperties => "objectWithoutProperties",
            Helper::ToPropertyKey => "toPropertyKey",
            Helper::DefineProperty => "defineProperty",
            Helper::ClassPrivateFieldInitSpec => "classPrivateFieldInitSpec",
            Helper::ClassPrivateMethodInitSpec => "classPrivateMethodInitSpec",
            Helper::ClassPrivateFieldGet2 => "classPrivateFieldGet2",
            Helper::ClassPrivateFieldSet2 => "classPrivateFieldSet2",
            Helper::AssertClassBrand => "assertClassBrand",
            Helper::ToSetter => "toSetter",
            Helper::ClassPrivateFieldLooseKey => "classPrivateFieldLooseKey",
            Helper::ClassPrivateFieldLooseBase => "classPrivateFieldLooseBase",
            Helper::SuperPropGet => "superPropGet",
            Helper::SuperPropSet => "superPropSet",
            Helper::ReadOnlyError => "readOnlyError",
            Helper::WriteOnlyError => "writeOnlyError",
            Helper::CheckInRHS => "checkInRHS",
            Helper::Decorate => "decorate",
            Helper::DecorateParam => "decorateParam",
            Helper::DecorateMetadata => "decorateMetadata",
            Helper::UsingCtx => "usingCtx",
            Helper::TaggedTemplateLiteral => "taggedTemplateLiteral",
            Helper::SetFunctionName => "setFunctionName",
        }
    }

    /// Whether a call of it has no effect.
    pub fn pure(self) -> bool
        ensures { result ≡ is_pure self }
    {
        matches!(self, Helper::ClassPrivateFieldLooseKey)
    }
}
