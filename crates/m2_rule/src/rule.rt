//! Rules and their numbers.

ghost use Rattle.std.specs.Prelude.{◌≡◌};
ghost use Rattle.m2_rule.specs.RuleNumber.{number_of, is_last};

/// A rule of imports, of declarations and types, or of storage.
#[derive(Clone, Copy, Debug, PartialEq, Eq)]
pub enum Rule {
    /// 20: an import of a module that has no definition, or of the module itself.
    MissingModule,
    /// 21: a second file of one definition or body, or a reserved name of a module.
    SecondFile,
    /// 22: definitions import one another in a cycle.
    Cycle,
    /// 23: not exactly one program module.
    ProgramCount,
    /// 24: a definition without an implementation, or the reverse.
    LonelyModule,
    /// 25: more than 1024 files.
    FileCount,
    /// 30: a name that is not declared, or not yet.
    Undeclared,
    /// 30: a procedure in front of its heading, where the heading is asked for. It is reported only if nothing else is.
    Ahead,
    /// 31: a name that is declared twice in one scope.
    DeclaredTwice,
    /// 32: a name that the module does not export.
    NotExported,
    /// 33: no type, if one is asked for.
    NoType,
    /// 34: no constant, if one is asked for.
    NoConstant,
    /// 35: a range whose first bound is above the second.
    EmptyRange,
    /// 36: a type that is no index.
    NoIndex,
    /// 37: an enumeration of more than 256 constants.
    ConstantCount,
    /// 38: a type of more than 131072 cells.
    LargeType,
    /// 40: operands, or another part, of a wrong type.
    WrongType,
    /// 41: a value that is not assignment compatible.
    NotAssignable,
    /// 42: too many or too few arguments.
    ArgumentCount,
    /// 43: an argument that a formal by value does not take.
    WrongArgument,
    /// 44: no variable of the type, if one is asked for.
    NoVariable,
    /// 45: EXIT outside of a LOOP.
    LonelyExit,
    /// 46: RETURN with a value that may have none, or without one.
    WrongReturn,
    /// 47: a variable that may not control a FOR.
    WrongControl,
    /// 48: the step 0.
    ZeroStep,
    /// 49: a label that is there twice, or is no constant.
    WrongLabel,
    /// 50: a heading that differs from the definition's.
    OtherHeading,
    /// 51: an exported procedure that the implementation lacks.
    MissingProcedure,
    /// 52: a constant that is out of range.
    OutOfRange,
    /// 53: a procedure that is no value.
    NoProcedureValue,
    /// 60: variables and strings, or a frame, that are too large.
    LargeStorage,
    /// 61: a program whose data does not fit into the memory.
    LargeProgram,
}

impl Rule {
    /// The number by which a broken rule is reported.
    pub fn number(self) -> u32
        ensures { result ≡ number_of self }
    {
        match self {
            Rule::MissingModule => 20,
            Rule::SecondFile => 21,
            Rule::Cycle => 22,
            Rule::ProgramCount => 23,
            Rule::LonelyModule => 24,
            Rule::FileCount => 25,
            Rule::Undeclared => 30,
            Rule::Ahead => 30,
            Rule::DeclaredTwice => 31,
            Rule::NotExported => 32,
            Rule::NoType => 33,
            Rule::NoConstant => 34,
            Rule::EmptyRange => 35,
            Rule::NoIndex => 36,
            Rule::ConstantCount => 37,
            Rule::LargeType => 38,
            Rule::WrongType => 40,
            Rule::NotAssignable => 41,
            Rule::ArgumentCount => 42,
            Rule::WrongArgument => 43,
            Rule::NoVariable => 44,
            Rule::LonelyExit => 45,
            Rule::WrongReturn => 46,
            Rule::WrongControl => 47,
            Rule::ZeroStep => 48,
            Rule::WrongLabel => 49,
            Rule::OtherHeading => 50,
            Rule::MissingProcedure => 51,
            Rule::OutOfRange => 52,
            Rule::NoProcedureValue => 53,
            Rule::LargeStorage => 60,
            Rule::LargeProgram => 61,
        }
    }

    /// Whether it is reported only if nothing else is.
    pub fn is_last(self) -> bool
        ensures { result ≡ is_last self }
    {
        matches!(self, Rule::Ahead)
    }
}
