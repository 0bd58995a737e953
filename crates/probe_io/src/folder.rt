// Files in memory, of which one is read from its first byte on.
ghost use Rattle.std.specs.Prelude.{◌≡◌, ◌≢◌, ◌≤◌, ◌++◌, ℕ, [], map, min, length, take, find, position, bytes_eq, List, Option, None, Some, false, IsTrue, ◌↔◌, is_some, ◌==◌};
ghost use Rattle.probe_io.specs.Files.{file_of, left_in, moved_on, File};
ghost use Rattle.probe_io.specs.Memory.{told_file};

use crate::names::Name;
use std::marker::Model;

/// Where the next read of a folder begins: the index of the file, and how many bytes were read.
#[derive(Clone, Copy, Debug)]
struct Cursor {
    file: usize,
    place: usize,
}

/// Named files, the first of each name being the one that counts, and the place in the one that is
/// started.
#[derive(Debug, Drop)]
pub struct Folder {
    files: Vec<(Name, Vec<u8>)>,
    cursor: Option<Cursor>,
}

impl Model for Folder {
    ghost use Rattle.std.specs.Prelude.{map, option_map};
    ghost use Rattle.std.specs.Option.{ForSome};
    ghost use Rattle.probe_io.specs.Memory.{SureShelfView, told_file, file_at, StandsIn};

    ghost Value = { SureShelfView };

    ghost view = { λ s. record {
      files = map told_file s.files.items;
      at = option_map (λ c. ((file_at (map told_file s.files.items) c.file).0, c.place)) s.cursor;
    } };

    ghost invariant = { λ s. ForSome s.cursor (λ c. StandsIn (map told_file s.files.items) c.file c.place) };
}

impl Folder {
    /// A folder of these files, with nothing started.
    pub fn new(files: Vec<(Name, Vec<u8>)>) -> Folder
        ensures files { result.files ≡ map told_file files.items }
        ensures closed { result.at ≡ None }
    {
        Folder {
            files,
            cursor: None,
        }
    }

    /// Starts the file of this name, and tells whether there is one. If not, nothing is started.
    pub fn start(&mut self, name: &str) -> bool
        ensures found { result ≡ is_some (file_of self.old.files name.now) }
        ensures started { IsTrue result → self.new.at ≡ Some (name.now, 0) }
        ensures closed { result ≡ false → self.new.at ≡ None }
        ensures same { self.new.files ≡ self.old.files }
    {
        match index_of(&self.files, name) {
            Some(file) => {
                self.cursor = Some(Cursor { file, place: 0 });
                true
            }
            None => {
                self.cursor = None;
                false
            }
        }
    }

    /// Puts the next bytes of the started file at the front of `buf`, at most `most` of them, and
    /// gives their number.
    pub fn read(&mut self, buf: &mut [u8], most: usize) -> usize
        ensures count { result ≡ min most (min (length buf.old) (length (left_in self.old.files self.old.at))) }
        ensures bytes { left_in self.old.files self.old.at ≡ take result buf.new ++ left_in self.new.files self.new.at }
        ensures moved { self.new.at ≡ moved_on self.old.at result }
        ensures same { self.new.files ≡ self.old.files }
    {
        let Some(cursor) = self.cursor else {
            return 0;
        };
        let count = copy_front(&self.files[cursor.file].1[cursor.place..], buf, most);
        self.cursor = Some(Cursor {
            file: cursor.file,
            place: cursor.place + count,
        });
        count
    }

    /// Tells whether a file is started.
    pub fn is_started(&self) -> bool
        ensures { result ≡ is_some self.now.at }
    {
        self.cursor.is_some()
    }

    /// Leaves the started file.
    pub fn stop(&mut self)
        ensures closed { self.new.at ≡ None }
        ensures same { self.new.files ≡ self.old.files }
    {
        self.cursor = None;
    }
}

// The index of the first file of this name.
fn index_of(files: &[(Name, Vec<u8>)], name: &str) -> Option<usize>
    ensures { result ≡ position (λ f. bytes_eq f.0 name.now) files.now }
{
    files.iter().position(|file| file.0.as_str() == name)
}

// Copies the front of `from` to that of `to`, at most `most` bytes, and gives their number.
fn copy_front(from: &[u8], to: &mut [u8], most: usize) -> usize
    ensures count { result ≡ min most (min (length to.old) (length from.now)) }
    ensures bytes { take result to.new ≡ take result from.now }
{
    let count = most.min(to.len().min(from.len()));
    to[..count].copy_from_slice(&from[..count]);
    count
}
