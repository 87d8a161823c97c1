// Files in a list, by name.
ghost use Rattle.std.specs.Prelude.{◌≡◌, ◌↔◌, Some, None, IsTrue, IsSome, IfOk, IfErr, OnOk, OnErr};
ghost use Rattle.log_entry.specs.Name.{IsLegal};
ghost use Rattle.dn_model.specs.Files.{IsSameFiles};
ghost use Rattle.dn_model.specs.Apply.{with_file, bytes_or_none, IsListing};
ghost use Rattle.dn_files.specs.FileLists.{files_of, AreRising, IsFileAt, IsPlaceFor};

use dn_model::{ByteText, NameList, NoMemory};
use log_entry::Name;
use std::alloc::{AllocError, Global};
use std::marker::Model;

/// A file's name and its bytes.
#[derive(Debug, Drop)]
pub struct FileText {
    pub name: Name,
    pub bytes: ByteText,
}

/// Files, seen as their list. The names rise in the order of their bytes, so each name has one file at most.
#[derive(Debug, Drop)]
pub struct Files {
    files: Vec<FileText>,
}

impl Model for Files {
    ghost use Rattle.std.specs.Prelude.{List};
    ghost use Rattle.dn_files.specs.declared.files.FileText.{FileText};
    ghost use Rattle.dn_files.specs.FileLists.{AreRising};

    ghost Value = { List FileText };

    ghost view = { λ f. f.files.items };

    ghost invariant = { λ f. AreRising f.files.items };
}

// Where the file with the name is, or where it would go.
fn search(files: &[FileText], name: &[u8]) -> Result<usize, usize>
    requires { AreRising files.now }
    ensures found { IfOk result (IsFileAt files.now name.now) }
    ensures absent { IfErr result (IsPlaceFor files.now name.now) }
{
    files.binary_search_by(|file| file.name.bytes().cmp(name))
}

impl Files {
    /// The files of a list.
    pub fn of(files: Vec<FileText>) -> Files
        requires { AreRising files.items }
        ensures { result ≡ files.items }
    {
        Files { files }
    }

    /// The list.
    pub fn files(&self) -> &[FileText]
        ensures list { result.now ≡ self.now }
        ensures rising { AreRising self.now }
    {
        &self.files
    }

    /// Whether a file has the name.
    pub(crate) fn has(&self, name: &[u8]) -> bool
        ensures { IsTrue result ↔ IsSome (files_of self.now name.now) }
    {
        search(&self.files, name).is_ok()
    }

    /// The bytes of the file with the name, or none where no file has it.
    pub(crate) fn bytes_of(&self, name: &[u8]) -> &[u8]
        ensures { result.now ≡ bytes_or_none (files_of self.now name.now) }
    {
        match search(&self.files, name) {
            Ok(at) => self.files[at].bytes.bytes(),
            Err(_) => &[],
        }
    }

    /// Lets the name lead to these bytes, and to no others.
    pub(crate) fn put(&mut self, alloc: Global, name: &[u8], bytes: Vec<u8>) -> Result<(), NoMemory>
        requires { IsLegal name.now }
        ensures ok { OnOk result
            (IsSameFiles (files_of self.new)
            (with_file (files_of self.old) name.now (Some bytes.items))) }
        ensures err { OnErr result (self.new ≡ self.old) }
    {
        match search(&self.files, name) {
            Ok(at) => self.files[at].bytes = ByteText::of(bytes),
            Err(at) => {
                let Ok(name) = Name::of(alloc, name) else {
                    return Err(AllocError);
                };
                let bytes = ByteText::of(bytes);
                self.files.insert(at, FileText { name, bytes })?;
            }
        }
        Ok(())
    }

    /// Lets the name lead to no file.
    pub(crate) fn drop_name(&mut self, name: &[u8])
        ensures { IsSameFiles (files_of self.new) (with_file (files_of self.old) name.now None) }
    {
        if let Ok(at) = search(&self.files, name) {
            let _ = self.files.remove(at);
        }
    }

    /// All names, in the order of their bytes.
    pub(crate) fn names(&self, alloc: Global) -> Result<NameList, NoMemory>
        ensures { IfOk result (IsListing (files_of self.now)) }
    {
        let mut names = Vec::with_capacity(alloc, self.files.len())?;
        for file in &self.files {
            names.push(file.name.clone()?)?;
        }
        Ok(NameList::of(names))
    }
}
