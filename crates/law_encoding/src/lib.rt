//! Laws alone: why the modules of what the checker accepts have an encoding. There is no code here but what names the laws.
//!
//! - `specs/Sizes` says how large trees are, and `specs/TypedSizes` how large typed trees are. `specs/Counted` says the same of
//!   what the checker makes of expressions, and `specs/Small` says what is proved.
//! - `proofs/Variants` has the sizes of trees by their variants, and `proofs/Weights` the induction over the grammar: a tree is
//!   no larger than its tokens. `proofs/Texts` counts the tokens of a text.
//! - `proofs/Ways` has three ways to weigh typed trees: how large they are, how deep they nest, and how many procedures outwards
//!   they go. `proofs/WaySums` says what sums of weights come to, `proofs/WayTrees` how much trees allow, and `proofs/Weighed`
//!   what typed trees weigh by their variants.
//! - One proof has the bounds of all three. `proofs/Operators` and `proofs/Calls` have a lemma for each definition of
//!   `check_value`, and `proofs/Meanings` the lemmas of `check_expr`, with the induction over expressions.
//!   `proofs/Effects` and `proofs/Steps` have a lemma for each definition of assignments, calls and `check_stmt_parts`, and
//!   `proofs/Statements` the induction over statements. `proofs/Blocks` has the bodies of procedures, with the induction over
//!   blocks, and whole modules. `proofs/Bounds` says it of each way, and `proofs/Bounded` has the bound of all texts.
//! - `proofs/Counts` and `proofs/StepCounts` count the locals that the code of expressions and statements takes,
//!   and `proofs/TableCalls` and `proofs/TableSteps` the calls through the table.
//! - `specs/Nesting` says how deep trees nest, `specs/TypedNesting` how deep typed trees do, `specs/CodeNesting` how deep code does,
//!   and `specs/Nested` what is proved. `proofs/DeepTexts` has the induction over the grammar and the parser's limit. `FlatCode`,
//!   `DeepCode` and `DeepCodeSteps` follow the code, and `DeepFunctions` has whole modules.
//! - `specs/CodeBytes` says how many bytes code takes at most, `specs/CodeNumbers` whether its numbers fit, and `specs/Outward` how
//!   many procedures outwards typed trees go. `specs/Short` and `specs/Fits` say what is proved of them: what a module has to be
//!   so that it has an encoding, and how much of it holds. `CodeFits`, `EncodedBytes`, `FunctionsFit` and `BodyModules` have the
//!   conditions, and `ShortCode` to `FunctionBytes` the bytes of code.
//! - `specs/ProcedureNesting` says how deep procedures nest, with the induction over the grammar in `proofs/NestedProcedures`.
//!   `specs/ProcedureLevels` says how deep they stand in a module. `proofs/ProcedureLevels` has the induction over blocks, and
//!   `proofs/KeptImports` what imports keep.
//! - `specs/ValidNumbers` says that in valid code only constants can be too large, and `specs/ModuleNumbers` says it of modules.
//!   `specs/FunctionTypes` counts the types of functions: `proofs/ListedTypes` has those that are listed, `proofs/TypesOfCalls` and
//!   `proofs/NeededTypes` those that are needed, and `proofs/FewTypes` their bytes.
//! - `specs/SmallParts` says when the constants in code fit. `proofs/Constants` and `proofs/ConstantPieces` have instructions and
//!   pieces, `proofs/ConstantCode` and `proofs/ConstantSteps` the inductions over typed trees, `proofs/ConstantFunctions` functions.
//! - `specs/ImportsRoom` and `specs/LinkRoom` have the imports of a body and the module link, with `proofs/Sections` and
//!   `proofs/Names`. `specs/NamesRoom` says that the names of texts are short, with the induction over the grammar in its proof.
//!   `specs/AcceptedRoom` puts together what is proved of the module of a body, and `specs/ProgramsRoom` of programs.
//!   `proofs/DistinctImports` shows that a module imports each module once.
//! - `specs/DeclaredProcedures` says that the procedures of a module are declared in its text, and that a module counts no more
//!   than its tree. `proofs/Awaited` has what awaited procedures count, with `proofs/AwaitedTypes` and `AwaitedDeclarations` for
//!   the steps, and `proofs/DeclaredProcedures` whole modules. `proofs/DistinctExports` has the exports of definitions,
//!   `proofs/HeadingCounts` the formals of headings, and `proofs/RoutineCounts` the induction over blocks. `proofs/ModuleCounts`
//!   has whole modules.
#![tactic(auto)]

ghost use Rattle.law_encoding.specs.Small.{TreesAreSmall, TextsAreSmall, ExpressionsAreSmall, DesignatorsAreSmall, StatementsAreSmall, ModulesAreSmall, BodiesAreSmall, LocalsAreFew, TableCallsAreFew};
ghost use Rattle.law_encoding.specs.Short.{CodeIsShort, FunctionsAreShort, ExpressionsAreNear, StatementsAreNear, RoutinesAreNear};
ghost use Rattle.law_encoding.specs.Fits.{CodeFits, EncodingsAreShort, BodiesFit, ModulesFit, BodyModulesFit, FunctionsHaveFewLocals, LocalsFit, SizesFit};
ghost use Rattle.law_encoding.specs.ValidNumbers.{ValidNumbersFit};
ghost use Rattle.law_encoding.specs.LinkRoom.{LinkFits};
ghost use Rattle.law_encoding.specs.AcceptedRoom.{AcceptedFit, TypedModulesFit};
ghost use Rattle.law_encoding.specs.ImportsRoom.{ImportsFit};
ghost use Rattle.law_encoding.specs.NamesRoom.{TextNamesAreShort, ShortNamesFit};
ghost use Rattle.law_encoding.specs.ProgramsRoom.{StoredAreSmall, ProgramsFit, AcceptedProgramsFit};
ghost use Rattle.law_encoding.specs.ModuleNumbers.{IndexesFit};
ghost use Rattle.law_encoding.specs.SmallParts.{ConstantsFit, ModuleConstantsFit};
ghost use Rattle.law_encoding.specs.FunctionTypes.{ListedAreFew, FewTypesFit, TypesAreFew};
ghost use Rattle.law_encoding.specs.DeclaredProcedures.{ProceduresAreDeclared, TablesExportOnce, CountsAreSmall};
ghost use Rattle.law_encoding.specs.ProcedureNesting.{ProceduresAreShallow};
ghost use Rattle.law_encoding.specs.ProcedureLevels.{LevelsAreLow, AcceptedAreNear};
ghost use Rattle.law_encoding.specs.Nested.{TreesAreShallow, ModulesAreShallow, CodeIsShallow, FunctionsAreShallow, LinkIsFlat, AcceptedAreShallow};
ghost use Rattle.check_scope.specs.Elaborated.{least, every};

/// Trees are no larger than their texts.
pub fn size_laws()
    // The tree of tokens is no larger than these,
    ensures trees { TreesAreSmall }
    // and the tree of a text no larger than the text.
    ensures texts { TextsAreSmall }
{}

/// What the checker makes of expressions and statements is no larger than these.
pub fn typed_size_laws()
    // That is so if the least broken rule is kept,
    ensures least { ExpressionsAreSmall least × DesignatorsAreSmall least
        × StatementsAreSmall least }
    // and if all of them are.
    ensures every { ExpressionsAreSmall every × DesignatorsAreSmall every
        × StatementsAreSmall every }
{}

/// The bodies of a module that the checker accepts are no larger than its tree.
pub fn module_size_laws()
    // That is so if the least broken rule is kept,
    ensures least { ModulesAreSmall least }
    // and if all of them are.
    ensures every { ModulesAreSmall every }
    // Each text that is not too long has bodies of a bounded size.
    ensures least_texts { BodiesAreSmall least }
    ensures every_texts { BodiesAreSmall every }
{}

/// The code of statements takes no more locals than they count.
pub fn local_laws()
    ensures { LocalsAreFew }
{}

/// Statements call through the table no more often than they count.
pub fn table_call_laws()
    ensures { TableCallsAreFew }
{}

/// The tree of a text nests no deeper than the parser's limit of 200 levels allows.
pub fn tree_nesting_laws()
    ensures { TreesAreShallow }
{}

/// At most 200 procedures stand in one another.
pub fn procedure_nesting_laws()
    ensures { ProceduresAreShallow }
{}

/// The procedures of a module that the checker accepts are declared in its text, if its definition exports each name once.
pub fn declared_procedure_laws()
    // That holds if the least broken rule is kept,
    ensures least { ProceduresAreDeclared least }
    // and if all of them are.
    ensures every { ProceduresAreDeclared every }
    // The table of a definition does so.
    ensures least_tables { TablesExportOnce least }
    ensures every_tables { TablesExportOnce every }
    // So procedures, formals and bodies count no more than the module's tree.
    ensures least_counts { CountsAreSmall least }
    ensures every_counts { CountsAreSmall every }
{}

/// Procedures stand no deeper in a module that the checker accepts than they nest in its tree.
pub fn procedure_level_laws()
    // That holds if the least broken rule is kept,
    ensures least { LevelsAreLow least }
    // and if all of them are.
    ensures every { LevelsAreLow every }
    // So the bodies of what is parsed and accepted go at most 200 procedures outwards.
    ensures least_near { AcceptedAreNear least }
    ensures every_near { AcceptedAreNear every }
{}

/// The bodies of a module that the checker accepts nest no deeper than its tree.
pub fn module_nesting_laws()
    // That holds if the least broken rule is kept,
    ensures least { ModulesAreShallow least }
    // and if all of them are.
    ensures every { ModulesAreShallow every }
    // So the blocks of the functions of what is parsed and accepted nest at most 4096 levels.
    ensures least_accepted { AcceptedAreShallow least }
    ensures every_accepted { AcceptedAreShallow every }
{}

/// Code nests no deeper than what it is the code of.
pub fn code_nesting_laws()
    // That is so for statements,
    ensures statements { CodeIsShallow }
    // for the functions of a module,
    ensures functions { FunctionsAreShallow }
    // and for the module link, which has no blocks.
    ensures link { LinkIsFlat }
{}

/// Code takes few bytes.
pub fn code_size_laws()
    // That is so for statements,
    ensures statements { CodeIsShort }
    // and for the functions of a module.
    ensures functions { FunctionsAreShort }
    // They fit if the module counts few.
    ensures sizes { SizesFit }
{}

/// Code has an encoding if it nests few levels and its numbers fit.
pub fn code_fit_laws()
    ensures fits { CodeFits }
    // Its encoding is then as short as it is counted.
    ensures short { EncodingsAreShort }
    // So have functions that are short in all,
    ensures bodies { BodiesFit }
    // and modules of these, if each other section fits.
    ensures modules { ModulesFit }
    // The module of a body asks for less, since it has no table, memory, global or export of its own.
    ensures body_modules { BodyModulesFit }
    // A function has few locals,
    ensures locals { FunctionsHaveFewLocals }
    // fewer than there may be, in each module of a text that is parsed and accepted.
    ensures least_locals { LocalsFit least }
    ensures every_locals { LocalsFit every }
{}

/// The numbers of code fit.
pub fn code_number_laws()
    // In valid code only constants can be too large.
    ensures valid { ValidNumbersFit }
    // So the indexes in a module with few parts fit.
    ensures indexes { IndexesFit }
    // The constants of typed statements fit, if types, frames and texts are small.
    ensures constants { ConstantsFit }
    // So do the constants in the functions of a typed module.
    ensures modules { ModuleConstantsFit }
{}

/// The module link has an encoding, if the program is small.
pub fn link_laws()
    ensures { LinkFits }
{}

/// The imports of the module of a body have an encoding, if there are few names and short ones.
pub fn import_laws()
    ensures { ImportsFit }
{}

/// The types of functions fit.
pub fn function_type_laws()
    // Each type is listed once,
    ensures listed { ListedAreFew }
    // and few types have an encoding.
    ensures fit { FewTypesFit }
    // A well formed module needs few types.
    ensures few { TypesAreFew }
{}

/// The module of a body that is parsed and accepted has an encoding, if it is small.
pub fn accepted_laws()
    // That holds if the least broken rule is kept,
    ensures least { AcceptedFit least }
    // and if all of them are.
    ensures every { AcceptedFit every }
    // So has the module of a body of a typed program.
    ensures typed { TypedModulesFit }
{}

/// Names are short.
pub fn name_laws()
    // The name of the module of a text is,
    ensures texts { TextNamesAreShort }
    // and there is room for few short names.
    ensures room { ShortNamesFit }
{}

/// The modules of a typed program have encodings, if its types and storage have room.
pub fn program_laws()
    // Then each module is small,
    ensures small { StoredAreSmall }
    // and has an encoding, if it is short too.
    ensures fit { ProgramsFit }
    // It is short if it is accepted: if the least broken rule is kept,
    ensures least { AcceptedProgramsFit least }
    // and if all of them are.
    ensures every { AcceptedProgramsFit every }
{}

/// What the checker makes goes outwards no further than its procedure stands deep.
pub fn outward_laws()
    // That is so if the least broken rule is kept,
    ensures least { ExpressionsAreNear least × StatementsAreNear least }
    // and if all of them are.
    ensures every { ExpressionsAreNear every × StatementsAreNear every }
    // So go the bodies of the procedures of a module.
    ensures least_routines { RoutinesAreNear least }
    ensures every_routines { RoutinesAreNear every }
{}
