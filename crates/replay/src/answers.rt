// One case: whether the library answers as expected.
use crate::cases::{Case, Part};
use crate::stores::Stores;
use crate::{bodies, files, heads, runs};

pub fn is_same(case: Case<'_>, stores: &mut Stores, out: &mut [u8]) -> bool {
    let Ok(part) = Part::try_from(case.part) else {
        return false;
    };
    match part {
        Part::HeaderRead => heads::header_read(case),
        Part::HeaderWritten => heads::header_written(case),
        Part::RecordHeaderRead => heads::record_header_read(case),
        Part::EntriesWritten => heads::entries_written(case),
        Part::PartCounted => heads::part_counted(case),
        Part::BodyRead => bodies::body_read(case, stores),
        Part::Ring => runs::ring(case, stores),
        Part::BodyWritten => files::body_written(case, stores, out),
        Part::FilesWritten => files::files_written(case, stores, out),
        Part::LesserAndGreater => heads::lesser_and_greater(case),
    }
}
