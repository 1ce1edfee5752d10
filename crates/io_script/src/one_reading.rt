//! The law that a printed text has one reading, and that every script of the grammar meets its premise
//! on names.
ghost use Rattle.std.specs.Prelude.{Bool, List, ℕ};
ghost use Rattle.io_model.specs.Fitting.{Fits};
ghost use Rattle.io_model.specs.declared.run.Run.{Run};
ghost use Rattle.io_model.specs.declared.script.Script.{Script};
ghost use Rattle.io_script.specs.Ranges.{IsRunInRange, IsScriptInRange};
ghost use Rattle.io_script.specs.OneReading.{NamesFiles, NamesFilesIfScript, HasOneReading};

/// Two runs of one script that print the same text, with the image or without it, are the same in
/// all that the text tells: replies, bytes read, pages, journals, extents, dirty bytes, counts,
/// lanes, and with the image the bytes of the mapped blocks. The script and the runs are any whose
/// numbers fit their types, as `numbers_of_a_script` and `numbers_of_a_run` show of every one.
pub fn text_has_one_reading()
    ensures { (script : Script) (image : Bool) (one other : Run) → NamesFiles script → IsScriptInRange script
        → Fits script one → Fits script other → IsRunInRange one → IsRunInRange other → HasOneReading script image one other }
{}

/// Every script of the grammar names its files: a name for each file, a word without a blank that no
/// other file has.
pub fn scripts_name_their_files()
    ensures { (text : List ℕ) (script : Script) → NamesFilesIfScript text script }
{}
