// The log that `--log` names: dpkg's lines, with date and time.
ghost use Rattle.std.specs.Prelude.{◌≡◌, ◌++◌, IfOk, codes, string_bytes};
ghost use Rattle.dpkg_cli.specs.Log.{log_line, qualified, stage_text, status_text, version_text};

use crate::stages::Stage;
use jiff::Timestamp;
use jiff::tz::{SystemTimeZone, TimeZone, TimeZoneDatabase};
use std::alloc::{AllocError, Global};
use std::fs::{File, OpenOptions};
use std::io::Write;
use std::os::unix::fs::OpenOptionsExt;

/// A file to whose end lines are added.
#[derive(Drop)]
pub(crate) struct Log {
    rt: HostRuntime,
    file: File,
    zone: Option<SystemTimeZone>,
    zones: TimeZoneDatabase,
}

fn log_line(alloc: Global, time: &str, text: &str) -> Result<String, AllocError>
    ensures { IfOk result (λ line. string_bytes line ≡ log_line time.now text.now) }
{
    format!(in alloc; "{time} {text}\n")
}

fn version_text(version: &str) -> &str
    ensures { result.now ≡ version_text version.now }
{
    if version.is_empty() {
        return "<none>";
    }
    version
}

fn joined(alloc: Global, package: &str, architecture: &str) -> Result<String, AllocError>
    ensures { IfOk result (λ text. string_bytes text
        ≡ «package».now ++ (codes ":" ++ architecture.now)) }
{
    format!(in alloc; "{package}:{architecture}")
}

/// A package with its architecture.
pub(crate) fn qualified(
    alloc: Global,
    package: &str,
    architecture: &str,
) -> Result<String, AllocError>
    ensures { IfOk result (λ text. string_bytes text
        ≡ qualified «package».now architecture.now) }
{
    if architecture.is_empty() {
        return String::from_str(alloc, package);
    }
    joined(alloc, package, architecture)
}

fn stage_line(
    alloc: Global,
    stage: &str,
    named: &str,
    old: &str,
    coming: &str,
) -> Result<String, AllocError>
    ensures { IfOk result (λ text. string_bytes text ≡ stage.now ++ (codes " " ++ (named.now
        ++ (codes " " ++ (old.now ++ (codes " " ++ coming.now)))))) }
{
    format!(in alloc; "{stage} {named} {old} {coming}")
}

/// What is begun with a package, of which a version is there, and another one comes.
pub(crate) fn stage_text(
    alloc: Global,
    stage: Stage,
    named: &str,
    old: &str,
    coming: &str,
) -> Result<String, AllocError>
    ensures { IfOk result (λ text. string_bytes text
        ≡ stage_text stage named.now old.now coming.now) }
{
    let old = version_text(old);
    stage_line(alloc, stage.name(), named, old, version_text(coming))
}

fn status_line(alloc: Global, state: &str, named: &str, version: &str) -> Result<String, AllocError>
    ensures { IfOk result (λ text. string_bytes text ≡ codes "status " ++ (state.now
        ++ (codes " " ++ (named.now ++ (codes " " ++ version.now))))) }
{
    format!(in alloc; "status {state} {named} {version}")
}

/// The state that was noted of a package.
pub(crate) fn status_text(
    alloc: Global,
    state: &str,
    named: &str,
    version: &str,
) -> Result<String, AllocError>
    ensures { IfOk result (λ text. string_bytes text
        ≡ status_text state.now named.now version.now) }
{
    status_line(alloc, state, named, version_text(version))
}

impl Log {
    /// Opens the file, which is made where there is none; where that can't be done a person is told.
    pub(crate) fn open(rt: &HostRuntime, name: &str) -> Option<Log> {
        match OpenOptions::new()
            .append(true)
            .create(true)
            .mode(0o644)
            .open(rt, name)
        {
            Ok(file) => Some(Log {
                rt: *rt,
                file,
                zone: SystemTimeZone::read(rt).ok(),
                zones: TimeZoneDatabase::new(rt.alloc()),
            }),
            Err(error) => {
                let _ = eprintln!(rt; "the log {name} can't be opened: {error}");
                None
            }
        }
    }

    // The zone of the system, or UTC where it can't be read.
    fn zone(&self) -> TimeZone<'_> {
        match &self.zone {
            Some(zone) => zone.time_zone(&self.zones).unwrap_or(TimeZone::UTC),
            None => TimeZone::UTC,
        }
    }

    fn time(&self) -> Option<String> {
        let now = Timestamp::now(&self.rt).ok()?.to_zoned(self.zone());
        now.strftime(self.rt.alloc(), b"%Y-%m-%d %H:%M:%S").ok()
    }

    /// Adds a line. Where that can't be done the line is missing.
    pub(crate) fn add(&self, text: &str) {
        let Some(time) = self.time() else {
            return;
        };
        if let Ok(line) = log_line(self.rt.alloc(), time.as_str(), text) {
            let mut file = &self.file;
            let _ = file.write_all(line.as_bytes());
        }
    }
}
