//! The file into which a cluster writes its histories at its end.
ghost use Rattle.std.specs.Prelude.{◌≡◌, IfErr, IfOk, Some, option_map};
ghost use Rattle.std.specs.String.{string_bytes};
ghost use Rattle.std.specs.List.{flat_map};
ghost use Rattle.history_bytes.specs.Histories.{history_bytes};
ghost use Rattle.byte_streams.specs.Writing.{Writes};
ghost use Rattle.cluster_service.specs.HistoriesFiles.{file_bytes, file_path};
ghost use Rattle.cluster_service.specs.RunFaults.{IsFileFault, IsSaveFault};

use byte_streams::{ProgramFault, write_whole};
use cluster_setup::ClusterSettings;
use history_bytes::history_bytes;
use ledger_model::History;
use std::alloc::Global;
use std::io::{self, Write};
use std::marker::Model;
use std::rt::Files;
use std::{fs, mem};

/// Writes the histories, one after another. After an error a prefix of them was written.
fn write_histories<W: Write>(alloc: Global, histories: &[History], file: &mut W) -> io::Result<()>
    ensures { Writes result (W.contents file.old) (W.contents file.new) (flat_map history_bytes histories.now) }
{
    for history in histories {
        let bytes = history_bytes(alloc, history)?;
        write_whole(file, &bytes)?;
    }
    Ok(())
}

/// A file for the histories of a cluster, with its path. Contracts see both, the bytes if they are known.
pub struct HistoriesFile<W: Write> {
    path: String,
    file: W,
}

// An own `Drop` keeps proofs short: an owner drops it by one call. See docs/WORKING.md.
impl<W: Write + Drop> Drop for HistoriesFile<W> {
    fn drop(self) {
        let HistoriesFile {
            path: _path,
            file: _file,
        } = self;
    }
}

impl<W: Write> Model for HistoriesFile<W> {
    ghost use Rattle.std.specs.String.{string_bytes};
    ghost use Rattle.cluster_service.specs.HistoriesFiles.{HistoriesFileView};

    ghost Value = { HistoriesFileView };

    ghost view = { λ f. record { path = string_bytes f.path; bytes = W.contents f.file } };
}

impl<W: Write> HistoriesFile<W> {
    ghost use Rattle.std.specs.Prelude.{◌≡◌, [], IfErr, OnErr, OnOk, Some};
    ghost use Rattle.std.specs.List.{flat_map};
    ghost use Rattle.history_bytes.specs.Histories.{history_bytes};
    ghost use Rattle.byte_streams.specs.Writing.{Writes};
    ghost use Rattle.cluster_service.specs.RunFaults.{IsSaveFault};

    /// Writes the histories, one after another. After an error a prefix of them was written: memory ran out, or a write
    /// was refused. The fault takes the path out of the file, so the fault of a later write has an empty path.
    pub fn save(&mut self, alloc: Global, histories: &[History]) -> Result<(), ProgramFault>
        ensures written { Writes result self.old.bytes self.new.bytes (flat_map history_bytes histories.now) }
        ensures fault { IfErr result (IsSaveFault (Some self.old.path)) }
        ensures path { OnOk result (self.new.path ≡ self.old.path) }
        ensures taken { OnErr result (self.new.path ≡ []) }
    {
        match write_histories(alloc, histories, &mut self.file) {
            Ok(()) => Ok(()),
            Err(error) => {
                let path = mem::replace(&mut self.path, String::new(alloc));
                Err(ProgramFault::NoFile(path, error))
            }
        }
    }
}

/// Makes the file with this path, in place of what is there.
fn create<R: Files>(rt: &R, path: &String) -> Result<HistoriesFile<R::File>, ProgramFault>
    ensures path { IfOk result (λ file. file.path ≡ string_bytes path.now) }
    ensures fault { IfErr result (IsFileFault (Some (string_bytes path.now))) }
{
    let path = path.clone()?;
    match fs::create(rt, path.as_str()) {
        Ok(file) => Ok(HistoriesFile { path, file }),
        Err(error) => Err(ProgramFault::NoFile(path, error)),
    }
}

/// Makes the file for the histories of a cluster, if the settings name one; what it has is lost. The errors are that the file
/// is refused, and allocation failure.
pub fn open_histories<R: Files>(
    rt: &R,
    settings: &ClusterSettings,
) -> Result<Option<HistoriesFile<R::File>>, ProgramFault>
    ensures opened { IfOk result (λ file. file_path file ≡ option_map string_bytes settings.now.histories) }
    ensures fault { IfErr result (IsFileFault (option_map string_bytes settings.now.histories)) }
{
    match &settings.histories {
        Some(path) => Ok(Some(create(rt, path)?)),
        None => Ok(None),
    }
}

/// Writes the histories to the file, if there is one.
pub(crate) fn save_histories<W: Write>(
    alloc: Global,
    histories: &[History],
    file: &mut Option<HistoriesFile<W>>,
) -> Result<(), ProgramFault>
    ensures written { Writes result (file_bytes file.old) (file_bytes file.new) (flat_map history_bytes histories.now) }
    ensures fault { IfErr result (IsSaveFault (file_path file.old)) }
{
    match file {
        Some(file) => file.save(alloc, histories),
        None => Ok(()),
    }
}
