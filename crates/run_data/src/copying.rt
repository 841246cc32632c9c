//! Copies of jobs and of files of a branch.
ghost use Rattle.std.specs.Prelude.{◌≡◌};

use crate::entry::LogFile;
use crate::job::Job;
use std::alloc::AllocError;

impl Clone for Job {
    ghost is_clone = { λ x y. y ≡ x };

    fn clone(&self) -> Result<Job, AllocError> {
        let path = self.path.clone()?;
        Ok(Job {
            kind: self.kind,
            key: self.key.clone()?,
            path,
            peer: self.peer,
        })
    }
}

impl Clone for LogFile {
    ghost is_clone = { λ x y. y ≡ x };

    fn clone(&self) -> Result<LogFile, AllocError> {
        match self {
            LogFile::Location(key) => Ok(LogFile::Location(key.clone()?)),
            LogFile::Of(kind) => Ok(LogFile::Of(*kind)),
            LogFile::Other(name) => Ok(LogFile::Other(name.clone()?)),
        }
    }
}
