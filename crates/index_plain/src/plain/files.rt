//! The changes of a file: it is uploaded, deleted or banned.
ghost use Rattle.std.specs.Prelude.{None, Option, Some};
ghost use Rattle.index_rules.specs.declared.change.Change.TheVariants.{BanFile, Delete, Upload};
ghost use Rattle.index_rules.specs.Maps.{Bytes};
ghost use Rattle.index_plain.specs.Plain.{Makes};

use crate::plain::PlainBooks;
use crate::table;
use index_digest::Sealed;
use index_names::{FileName, NormalName};
use index_rules::{FileRecord, NameRecord, Project};
use std::alloc::AllocError;

impl PlainBooks {
    /// The name and the file have these records, and the bytes are stored. If `ends_case`, the case ends.
    pub(super) fn upload(
        &mut self,
        name: &NormalName,
        project: Project,
        file: &FileName,
        known: FileRecord,
        body: Sealed,
        ends_case: bool,
    ) -> Result<(), AllocError>
        ensures made { let change = Upload name.now project file.now known body ends_case in
            Makes change self.old self.new result }
    {
        let former = table::replace(&mut self.names, name, NameRecord::Held(project))?;
        match table::put_both(&mut self.files, file, known, &mut self.bodies, file, body) {
            Ok(()) => {
                if ends_case {
                    self.end_case(name);
                }
                Ok(())
            }
            Err(error) => {
                table::put_back(&mut self.names, name, former);
                Err(error)
            }
        }
    }

    /// The name and the file have these records, the bytes are deleted, and the case ends.
    pub(super) fn delete(
        &mut self,
        name: &NormalName,
        project: Project,
        file: &FileName,
        known: FileRecord,
    ) -> Result<(), AllocError>
        ensures made { Makes (Delete name.now project file.now known) self.old self.new result }
    {
        let held = NameRecord::Held(project);
        table::put_both(&mut self.names, name, held, &mut self.files, file, known)?;
        table::remove(&mut self.bodies, file);
        self.end_case(name);
        Ok(())
    }

    /// The file is banned and has this record, and its bytes are deleted. If there is a `project`, the name has this
    /// record.
    pub(super) fn ban_file(
        &mut self,
        name: &NormalName,
        project: Option<Project>,
        file: &FileName,
        known: FileRecord,
    ) -> Result<(), AllocError>
        ensures made { Makes (BanFile name.now project file.now known) self.old self.new result }
    {
        match project {
            Some(project) => self.ban_charged(name, project, file, known),
            None => self.ban_alone(file, known),
        }
    }

    /// Bans an undeleted file, and takes its size off the charge of its name. The name is put back if memory runs out.
    fn ban_charged(
        &mut self,
        name: &NormalName,
        project: Project,
        file: &FileName,
        known: FileRecord,
    ) -> Result<(), AllocError>
        ensures made { let change = BanFile name.now (Some project) file.now known in
            Makes change self.old self.new result }
    {
        let before = table::replace(&mut self.names, name, NameRecord::Held(project))?;
        match table::put_both(&mut self.files, file, known, &mut self.bans, file, ()) {
            Ok(()) => {
                table::remove(&mut self.bodies, file);
                Ok(())
            }
            Err(error) => {
                table::put_back(&mut self.names, name, before);
                Err(error)
            }
        }
    }

    /// Bans a file that no name is charged for.
    fn ban_alone(&mut self, file: &FileName, known: FileRecord) -> Result<(), AllocError>
        ensures made { (name : Bytes)
            → Makes (BanFile name None file.now known) self.old self.new result }
    {
        table::put_both(&mut self.files, file, known, &mut self.bans, file, ())?;
        table::remove(&mut self.bodies, file);
        Ok(())
    }
}
