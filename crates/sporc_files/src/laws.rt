//! A law of the names of files. Its function does nothing.

ghost use Rattle.std.specs.Prelude.{◌≡◌};
ghost use Rattle.sporc_files.specs.declared.file.File.{File};
ghost use Rattle.sporc_files.specs.Names.{FileNames, IsOfDocument, file_name};

/// Different files of one document have different names.
pub fn files_have_their_own_names()
    ensures names { (names : FileNames) (one other : File) → IsOfDocument one → IsOfDocument other
        → file_name names one ≡ file_name names other → one ≡ other }
{}
