//! What numbers and forms say, in the words' and the files' own terms.

ghost use Rattle.nt_words.specs.Files.{SecretsAreOf32Digits, SeedsAreOf32Bytes};
ghost use Rattle.nt_words.specs.Options.{NumbersTheFirstMisfit, MissesNone};
ghost use Rattle.nt_words.specs.Roles.{BadWordsNumberAMisfit};
ghost use Rattle.nt_words.specs.Setups.{FilesAreOfOptions};

/// The number of a misfit is that of the first option whose value isn't right, and where there is none each value is
/// right. Words of a program that are refused with another number than 0 are refused with that number. It does nothing.
pub fn number_is_of_the_first_misfit()
    ensures first { NumbersTheFirstMisfit }
    ensures none { MissesNone }
    ensures words { BadWordsNumberAMisfit }
{}

/// A seed is taken exactly where it has 32 bytes, and a secret or a hash exactly where it is 32 hex digits and at most
/// one newline. It does nothing.
pub fn what_files_hold()
    ensures seeds { SeedsAreOf32Bytes }
    ensures secrets { SecretsAreOf32Digits }
{}

/// The files of a job are those that the options of its command name whose values are files, by their numbers, in their
/// order. It does nothing.
pub fn files_are_of_their_options()
    ensures { FilesAreOfOptions }
{}
