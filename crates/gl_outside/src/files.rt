// Files by name, in a list.
ghost use Rattle.std.specs.Prelude.{◌≡◌, ℕ, List, [], ◌∷◌, ◌++◌, length, OnOk, OnErr, IsTrue, ◌↔◌, string_bytes, option_map, slice_get};
ghost use Rattle.gl_outside.specs.Shelf.{file_of};

use std::alloc::{AllocError, Global};
use std::marker::Model;

/// A file: its name and its bytes.
#[derive(Drop)]
pub struct File {
    name: String,
    bytes: Vec<u8>,
}

impl Model for File {
    ghost Value = { List ℕ × List ℕ };

    ghost view = { λ f. (string_bytes f.name, f.bytes.items) };
}

impl File {
    /// A file of that name with these bytes.
    pub fn new(name: String, bytes: Vec<u8>) -> File
        ensures { result ≡ (string_bytes name, bytes.items) }
    {
        File { name, bytes }
    }

    /// The file's name.
    pub fn name(&self) -> &str
        ensures { result.now ≡ self.now.0 }
    {
        self.name.as_str()
    }

    /// The file's bytes.
    pub fn bytes(&self) -> &[u8]
        ensures { result.now ≡ self.now.1 }
    {
        self.bytes.as_slice()
    }
}

/// A list of files.
#[derive(Drop)]
pub struct Files {
    list: Vec<File>,
}

impl Model for Files {
    ghost Value = { List (List ℕ × List ℕ) };

    ghost view = { λ f. f.list.items };
}

impl Files {
    /// An empty list. It takes no memory.
    pub fn new(alloc: Global) -> Files
        ensures { result ≡ [] }
    {
        Files {
            list: Vec::new(alloc),
        }
    }

    /// The list of these files.
    pub fn from_vec(list: Vec<File>) -> Files
        ensures { result ≡ list.items }
    {
        Files { list }
    }

    /// The files of the list.
    pub fn into_vec(self) -> Vec<File>
        ensures { result.items ≡ self }
    {
        self.list
    }

    /// The files of the list, lent.
    pub fn as_slice(&self) -> &[File]
        ensures { result.now ≡ self.now }
    {
        self.list.as_slice()
    }

    /// How many files the list has.
    pub fn len(&self) -> usize
        ensures { result ≡ length self.now }
    {
        self.list.len()
    }

    /// Whether the list has no file.
    pub fn is_empty(&self) -> bool
        ensures { IsTrue result ↔ (self.now ≡ []) }
    {
        self.list.is_empty()
    }

    /// The file at that place, from 0.
    pub fn get(&self, index: usize) -> Option<&File>
        ensures { option_map (λ f. f.now) result ≡ slice_get self.now index }
    {
        self.list.get(index)
    }

    /// Appends a file.
    pub fn push(&mut self, file: File) -> Result<(), AllocError>
        ensures ok { OnOk result (self.new ≡ self.old ++ file ∷ []) }
        ensures err { OnErr result (self.new ≡ self.old) }
    {
        self.list.push(file)?;
        Ok(())
    }

    /// The bytes of the first file of that name.
    pub fn find(&self, name: &str) -> Option<&[u8]>
        ensures { option_map (λ b. b.now) result ≡ file_of self.now name.now }
    {
        self.list
            .iter()
            .find(|file| file.name() == name)
            .map(|file| file.bytes())
    }
}
