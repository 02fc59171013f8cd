//! Laws over what is proved of the program: what follows from the contracts of `run` and from the definitions that these cite.
//! Each function does nothing; its contract is the law. The program doesn't stand on this crate.
#![tactic(auto)]

ghost use Rattle.dgn_tool.specs.ScriptLaws.{ScriptsHoldEdits, UntouchedByScripts};
ghost use Rattle.dgn_laws.specs.PatchLaws.{RefusesWhereOneDiffers, RefusesNoneElse, AppliesAll, WritesTheSame, AppliedGivesTheSame};
ghost use Rattle.dgn_laws.specs.PackedRuns.{PackedRunsApply};
ghost use Rattle.dgn_laws.specs.FitLaws.{FitsEndFindings};
ghost use Rattle.dgn_laws.specs.ImportLaws.{ImportsNestApart, ImportsOfRunsNestApart, RefusedImportsChangeNothing};
ghost use Rattle.dgn_tool.specs.Generation.{FixedScriptReads};
ghost use Rattle.std.specs.Prelude.{◌≡◌};
ghost use Rattle.dgn_layout.specs.declared.TheConstants.{SHARED_CELL, END_MARK};
ghost use Rattle.dgn_drawing.specs.declared.limits.TheConstants.{MOST_DESIGN};
ghost use Rattle.edit_script.specs.declared.limits.TheConstants.{MOST_SCRIPT};
ghost use Rattle.patch_file.specs.declared.limits.TheConstants.{MOST_PATCH};

/// The commands that a script reads to hold what their types keep: where its text is bytes, each edit, each edit of a fence
/// and each displacement of an import has values that its fields can hold.
pub fn scripts_hold_edits()
    ensures { ScriptsHoldEdits }
{}

/// Untouched bytes stay with every script, of which nothing is asked but that it is bytes and reads to its commands.
pub fn untouched_by_scripts()
    ensures { UntouchedByScripts }
{}

/// Applied gives the same: the entries of the patch file that a run packs stand, one after the other, on the elements of
/// the file that was read, and put on these they give the exact bytes of the elements that the commands make. Each
/// drawing on the way keeps the limit of a design file, and a patch file within its limit is read to these entries. So a
/// run that applies this patch file to that file writes the very file that `edit` writes.
pub fn applied_gives_the_same()
    ensures entries { AppliedGivesTheSame }
    ensures file { WritesTheSame }
{}

/// What is packed applies: where a run packs what SCRIPT does to IN, and a run behind it applies that patch file to a drawing,
/// the clauses `outcome` and `bytes` of `run` give the following. On a drawing of the same bytes as IN the second run writes the
/// very file that `edit` would have written; on any drawing it is refused at an entry exactly where that is the first that
/// differs, those before it keeping the limit of a design file, and then it says the number of that entry and writes nothing.
pub fn packed_runs_apply()
    ensures { PackedRunsApply }
{}

/// Where a run comes to a fit and does it, `audit` would say behind it exactly what it would have said before it, without
/// the elements of the tree that was fitted: none of them is a finding any more, and those of all other trees are as before.
pub fn fits_end_findings()
    ensures { FitsEndFindings }
{}

/// Imports nest apart: behind an import that is accepted, the trees of the drawing are those that it had and then the trees
/// that are taken of the second file; their bytes stand behind all bytes of the elements that it had; and the line says how
/// many trees they are. So it is in each state with an element, and behind any commands of a script. An import is refused
/// exactly where the second file doesn't open or has another dimension, the displacement is given for other axes or refuses
/// a tree, or the file would exceed its limit; and then nothing changes.
pub fn imports_nest_apart()
    ensures accepted { ImportsNestApart }
    ensures run { ImportsOfRunsNestApart }
    ensures refused { RefusedImportsChangeNothing }
{}

/// The fixed script that is run on a generated drawing is read to its commands.
pub fn fixed_script_reads()
    ensures { FixedScriptReads }
{}

/// Refused at the first difference: a run that applies a patch file to a drawing that opens is refused exactly at the first
/// entry that doesn't stand on what those before it made, where these keep the limit of a design file. The line has the
/// number of that entry, from 1, and no file is written.
pub fn refused_at_the_first_difference()
    ensures refused { RefusesWhereOneDiffers }
    ensures only { RefusesNoneElse }
{}

/// Where all entries of the patch file stand, each on what those before it made, and keep the limit of a design file, the
/// run writes what they make of the drawing, with its tail, and what fills the last block as before.
pub fn all_entries_applied()
    ensures { AppliesAll }
{}

/// The constants of the code that definitions cite are these numbers: the most bytes of a design file, of a script and of a
/// patch file, and the types of a shared cell definition and of the end mark.
pub fn constants_are_these_numbers()
    ensures design { MOST_DESIGN ≡ 67108864 }
    ensures script { MOST_SCRIPT ≡ 1048576 }
    ensures patch { MOST_PATCH ≡ 134217728 }
    ensures shared_cell { SHARED_CELL ≡ 34 }
    ensures end_mark { END_MARK ≡ 127 }
{}
