//! Laws that show that the definitions mean what they say, each the contract of a function without
//! a body of its own.
ghost use Rattle.arimaa_archive.specs.Agreement.{AnswersAgree, WorkersAgree};
ghost use Rattle.arimaa_archive.specs.Cover.{CountLines, KeepLines};

use arimaa_record::lines_apart;

/// What is answered to given words over given bytes has one status and one text.
pub fn archive_answers_agree()
    ensures { AnswersAgree }
{
    lines_apart();
}

/// What is answered over given bytes is the same for any number of workers.
pub fn workers_agree()
    ensures { WorkersAgree }
{
    lines_apart();
}

/// No line of an archive is lost and none comes twice: the lines before its first record, and then
/// those of its records in order, are all of its lines but those that begin a record, and there are
/// as many records as these.
pub fn records_keep_lines()
    ensures lines { KeepLines }
    ensures count { CountLines }
{}
