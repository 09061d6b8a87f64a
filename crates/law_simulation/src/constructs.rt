//! The code of each construct does what the definition of a run says, if the code of its parts does.
//!
//! - `specs/Scene` says where the code of a body runs, what stands there on both sides, and when code agrees with the
//!   definition of a run.
//! - `specs/Begun` has the run with a WHILE that is bounded as its code is, by how often it begins. The laws on whole
//!   programs speak of the language's run again.
//! - `specs/Laws` has a law for each construct, and `specs/TablesLaws` the one on a CASE that jumps by a table.

ghost use Rattle.law_simulation.specs.Laws.{Absolutes, Assigns, Capitals, Cases, Chains, Changes, Characters, Combinations, Conjunctions, Constants, Conversions, Differences, Designators, Disjunctions, Elements, Exits, Entire, Fields, Fors, Globals, Halts, Identities, Ifs, Inclusions, Loads, LoneIfs, Loops, Members, Memberships, Negations, Opened, Opposites, Ordinals, Own, Parities, Products, Puts, Quotients, Relations, Remainders, Repeats, Returns, Rows, Sums, Unlabelled, Whiles, Withs};
ghost use Rattle.law_simulation.specs.TablesLaws.{TableCases};

/// The code of an expression leaves its value.
pub fn expression_laws()
    ensures constants { Constants }
    // Sums, differences and products are checked in their base type.
    ensures sums { Sums }
    ensures differences { Differences }
    ensures products { Products }
    // The divisor of DIV and MOD is checked.
    ensures quotients { Quotients }
    ensures remainders { Remainders }
    // AND and OR evaluate their second operand only if the first does not decide.
    ensures conjunctions { Conjunctions }
    ensures disjunctions { Disjunctions }
    ensures combinations { Combinations }
    // Operators follow one another from left to right.
    ensures chains { Chains }
    ensures relations { Relations }
    ensures inclusions { Inclusions }
    // The element is kept while the set is evaluated.
    ensures members { Members }
    ensures negations { Negations }
    // Signs and standard functions.
    ensures identities { Identities }
    ensures opposites { Opposites }
    ensures absolutes { Absolutes }
    ensures capitals { Capitals }
    ensures characters { Characters }
    ensures parities { Parities }
    ensures ordinals { Ordinals }
    ensures conversions { Conversions }
    // A scalar variable is read.
    ensures loads { Loads }
{}

/// The code of a designator leaves the address of the location.
pub fn designator_laws()
    ensures globals { Globals }
    // A formal or a variable of the procedure itself.
    ensures own { Own }
    // The variable of a FOR is an entire one.
    ensures entire { Entire }
    // The record of a WITH, whose address is kept in a local.
    ensures opened { Opened }
    ensures fields { Fields }
    // An index is checked: outside of the array both end with fault 3.
    ensures elements { Elements }
    ensures designators { Designators }
{}

/// The code of a statement does what the statement does, with the same bound on turns.
pub fn statement_laws()
    ensures assigns { Assigns }
    // INC and DEC, INCL and EXCL: the variable's address is kept.
    ensures changes { Changes }
    ensures memberships { Memberships }
    ensures puts { Puts }
    ensures halts { Halts }
    ensures exits { Exits }
    ensures gives_back { Returns }
    ensures rows { Rows }
    ensures lone_ifs { LoneIfs }
    ensures ifs { Ifs }
    // The record of a WITH is found once.
    ensures withs { Withs }
    // The labels of a CASE are tested in turn, and without ELSE there is a fault if none fits.
    ensures cases { Cases }
    ensures unlabelled { Unlabelled }
    // The limit of a FOR is kept, and its variable steps on if that does not pass the limit.
    ensures fors { Fors }
    ensures whiles { Whiles }
    ensures repeats { Repeats }
    // EXIT leaves the innermost LOOP.
    ensures loops { Loops }
{}

/// A CASE whose labels are few and close together is one jump by a table.
pub fn table_laws()
    ensures { TableCases }
{}
