//! Laws of builds. There is no code here but what names them.

ghost use Rattle.m2c.specs.Encodings.{ProgramsFit};
ghost use Rattle.m2c.specs.Outcomes.{FilesHaveOutcomes, OneOutcome};
ghost use Rattle.m2c.specs.Readings.{TreesOrRefusals};

/// Files have at most one outcome in a number of pages. It does not matter who asks for it, or with which workers.
pub fn outcome_laws()
    ensures { OneOutcome }
{}

/// Every program of which nothing is reported has an encoding: the numbers of its code, types, locals and blocks fit.
pub fn encoding_laws()
    ensures { ProgramsFit }
{}

/// All files have an outcome in every number of pages: texts break rules, or imports do, or modules do, or the data of the
/// program does not fit, or there are modules for it.
pub fn files_laws()
    ensures { FilesHaveOutcomes }
{}

/// All texts have trees, or some are refused, and these refusals are reported. It does not matter what their bytes are.
pub fn reading_laws()
    ensures { TreesOrRefusals }
{}
