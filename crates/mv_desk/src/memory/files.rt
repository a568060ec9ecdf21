// The files of a desk in memory, by their names.
ghost use Rattle.std.specs.Prelude.{◌≡◌, ◌<◌, ◌++◌, ◌∷◌, [], length, set, IfOk, OnOk, OnErr};
ghost use Rattle.std.specs.List.{position};
ghost use Rattle.mv_desk.specs.Files.{file_at, file_of, is_named};

use std::alloc::{AllocError, Global};
use std::marker::Model;

/// Files in memory. Contracts see the name and the bytes of each.
#[derive(Drop)]
pub struct Files {
    items: Vec<(String, Vec<u8>)>,
}

impl Model for Files {
    ghost use Rattle.std.specs.Prelude.{List};
    ghost use Rattle.mv_desk.specs.Files.{File, files_from};

    ghost Value = { List File };

    ghost view = { λ f. files_from f.items.items };
}

impl Files {
    ghost use Rattle.mv_desk.specs.Files.{files_from};

    pub fn new(items: Vec<(String, Vec<u8>)>) -> Files
        ensures { result ≡ files_from items.items }
    {
        Files { items }
    }

    /// The first file of a name.
    pub fn position_of(&self, name: &str) -> Option<usize>
        ensures { result ≡ position (is_named name.now) self.now }
    {
        first_named(&self.items, name)
    }

    pub fn bytes(&self, at: usize) -> &[u8]
        requires { at < length self.now }
        ensures { result.now ≡ (file_at self.now at).1 }
    {
        &self.items[at].1
    }

    pub fn append(&mut self, at: usize, piece: &[u8]) -> Result<(), AllocError>
        requires { at < length self.old }
        ensures ok { OnOk result (let file = file_at self.old at in
            self.new ≡ set self.old at (file.0, file.1 ++ piece.now)) }
        ensures err { OnErr result (self.new ≡ self.old) }
    {
        self.items[at].1.extend_from_slice(piece)?;
        Ok(())
    }

    pub fn clear(&mut self, at: usize)
        requires { at < length self.old }
        ensures { self.new ≡ set self.old at ((file_at self.old at).0, []) }
    {
        self.items[at].1.clear();
    }

    /// Adds an empty file, and gives its place.
    pub fn add(&mut self, alloc: Global, name: &str) -> Result<usize, AllocError>
        ensures at { IfOk result (λ at. at ≡ length self.old) }
        ensures ok { OnOk result (self.new ≡ self.old ++ (name.now, []) ∷ []) }
        ensures err { OnErr result (self.new ≡ self.old) }
    {
        let at = self.items.len();
        let name = String::from_str(alloc, name)?;
        self.items.push((name, Vec::new(alloc)))?;
        Ok(at)
    }
}

fn first_named(pairs: &[(String, Vec<u8>)], name: &str) -> Option<usize>
    ensures { result ≡ position (λ pair. is_named name.now (file_of pair)) pairs.now }
{
    pairs.iter().position(|pair| pair.0.as_str() == name)
}
