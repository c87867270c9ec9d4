//! The names of a command's files.

ghost use Rattle.std.specs.Prelude.{◌≡◌, ◌-◌};
ghost use Rattle.sporc_files.specs.Names.{name_of_other, names_of_document, names_of_documents};
ghost use Rattle.sporc_files.specs.Names.{stem_of};

use crate::file::File;
use sporc_words::Word;
use std::marker::Model;

/// What a command's files are named by: the name of its document, and the words that name its
/// editor scripts, or several documents.
#[derive(Drop)]
pub struct Names<'a> {
    document: &'a str,
    others: &'a [Word],
}

impl<'a> Model for Names<'a> {
    ghost use Rattle.sporc_files.specs.Names.{FileNames};

    ghost Value = { FileNames };

    ghost view = { λ n. record { document = n.document.now; others = n.others.now } };
}

impl<'a> Names<'a> {
    /// Of a document, and of editor scripts.
    pub fn new(document: &'a str, others: &'a [Word]) -> Names<'a>
        ensures value { result ≡ record { document = document.now; others = others.now } }
    {
        Names { document, others }
    }

    /// Of a document alone.
    pub fn of_document(document: &'a str) -> Names<'a>
        ensures value { result ≡ names_of_document document.now }
    {
        Names {
            document,
            others: &[],
        }
    }

    /// Of several documents.
    pub fn of_documents(documents: &'a [Word]) -> Names<'a>
        ensures value { result ≡ names_of_documents documents.now }
    {
        Names {
            document: "",
            others: documents,
        }
    }

    // The word of this number, counted from 1. There is no name if there is no such word.
    fn other(&self, number: u32) -> &'a str
        ensures { result.now ≡ name_of_other self.now number }
    {
        match self.others.get((number as usize).saturating_sub(1)) {
            Some(word) => word.as_str(),
            None => "",
        }
    }

    /// What the name of a file begins with: the name of the document, unless it is a script, or
    /// there are several documents.
    pub fn stem(&self, file: File) -> &'a str
        ensures value { result.now ≡ stem_of self.now file }
    {
        match file {
            File::Script(number)
            | File::GenesisOf(number)
            | File::LogOf(number)
            | File::Document(number)
            | File::TailOf(number) => self.other(number),
            _ => self.document,
        }
    }
}
