// The aliases above a path, read from a root.
ghost use Rattle.std.specs.Prelude.{◌≡◌, Some, IsTrue, true, false, OnOk, OnErr, MatchOption};
ghost use Rattle.host_core.specs.Host.{Leaves, Needs, Reads, Silent, Counts};
ghost use Rattle.host_core.specs.Looks.{Looks};
ghost use Rattle.aliases.specs.Links as spec;
ghost use Rattle.aliases.specs.Reading.{is_link, AreAliasesIn, Grows, IsWhole};
ghost use Rattle.aliases.specs.Ways.{AreSettled, is_link_kind, is_linked, HasLooked};

use crate::aliases::Aliases;
use crate::links::leads_to;
use crate::looked::{Looked, enter};
use crate::names::{cut_at_slash, place_of};
use host_core::{Host, HostFault, Kind, RootPath};
use std::alloc::Global;

fn is_link(kind: Option<Kind>) -> bool
    ensures { result ≡ is_link_kind kind }
{
    match kind {
        Some(Kind::SymbolicLink) => true,
        Some(Kind::Directory) => false,
        Some(Kind::File) => false,
        None => false,
    }
}

// The directory that the link at a path leads to, if a link stands there and leads to one.
#[tactic(auto, using(host_core::proofs::Moments::reads_then))]
fn target_of<H: Host>(
    alloc: Global,
    host: &mut H,
    place: &RootPath,
) -> Result<Option<RootPath>, HostFault>
    ensures looks { Looks result
        (λ target w. MatchOption target (is_linked w place.now ≡ false)
        (λ t. (is_link (w place.now) ≡ true) × (spec.leads_to w place.now ≡ Some t)))
        (H.state host.old) (H.state host.new) }
{
    if !is_link(host.kind(place)?) {
        return Ok(None);
    }
    leads_to(alloc, host, place)
}

impl Aliases {
    // Adds the alias at one path, if one stands there.
    fn read_at<H: Host>(&mut self, host: &mut H, way: &str) -> Result<(), HostFault>
        ensures looked { OnOk result (HasLooked (H.state host.new).honest (H.state host.old).world
            way.now self.old self.new) }
        ensures err { OnErr result (self.new ≡ self.old) }
        ensures reads { Reads (H.state host.old) (H.state host.new) }
        ensures silent { Silent (H.state host.old) (H.state host.new) }
        ensures counts { Counts (H.state host.old) (H.state host.new) result }
    {
        if self.has(way) {
            return Ok(());
        }
        let alloc = self.alloc();
        let Some(place) = place_of(alloc, way)? else {
            return Ok(());
        };
        let Some(target) = target_of(alloc, host, &place)? else {
            return Ok(());
        };
        target.law();
        self.push(&place, target)?;
        Ok(())
    }

    /// Adds what is missing of the aliases above a path. An alias that is there isn't looked at again: behind a call that may
    /// have changed the root the aliases are read anew.
    pub fn read_above<H: Host>(&mut self, host: &mut H, path: &RootPath) -> Result<(), HostFault>
        ensures grows { Grows (H.state host.new).honest (H.state host.old).world path.now self.old
            self.new }
        ensures whole { Leaves result (λ w _. AreAliasesIn w self.old → IsWhole w path.now self.new)
            (H.state host.old) (H.state host.new) }
        ensures reads { Reads (H.state host.old) (H.state host.new) }
        ensures silent { Silent (H.state host.old) (H.state host.new) }
        ensures counts { Counts (H.state host.old) (H.state host.new) result }
    {
        let mut looked = Looked::none(self.alloc());
        self.read_above_once(host, path, &mut looked)
    }

    // The same of a directory that may have been looked at.
    fn read_once<H: Host>(
        &mut self,
        host: &mut H,
        way: &str,
        looked: &mut Looked,
    ) -> Result<(), HostFault>
        requires settled { Needs (H.state host.old) (λ w. AreSettled w self.old looked.old) }
        ensures looked { OnOk result (HasLooked (H.state host.new).honest (H.state host.old).world
            way.now self.old self.new) }
        ensures err { OnErr result (self.new ≡ self.old) }
        ensures settled { Needs (H.state host.new) (λ w. AreSettled w self.new looked.new) }
        ensures reads { Reads (H.state host.old) (H.state host.new) }
        ensures silent { Silent (H.state host.old) (H.state host.new) }
        ensures counts { Counts (H.state host.old) (H.state host.new) result }
    {
        if looked.has(way) {
            return Ok(());
        }
        let text = String::from_str(self.alloc(), way)?;
        looked.ways.reserve(1)?;
        self.read_at(host, way)?;
        enter(&mut looked.ways, text);
        Ok(())
    }

    /// The same, where a directory that was looked at isn't looked at again.
    pub fn read_above_once<H: Host>(
        &mut self,
        host: &mut H,
        path: &RootPath,
        looked: &mut Looked,
    ) -> Result<(), HostFault>
        requires settled { Needs (H.state host.old) (λ w. AreSettled w self.old looked.old) }
        ensures settled { Needs (H.state host.new) (λ w. AreSettled w self.new looked.new) }
        ensures grows { Grows (H.state host.new).honest (H.state host.old).world path.now self.old
            self.new }
        ensures whole { Leaves result (λ w _. AreAliasesIn w self.old → IsWhole w path.now self.new)
            (H.state host.old) (H.state host.new) }
        ensures reads { Reads (H.state host.old) (H.state host.new) }
        ensures silent { Silent (H.state host.old) (H.state host.new) }
        ensures counts { Counts (H.state host.old) (H.state host.new) result }
    {
        let mut way = String::new(self.alloc());
        let mut rest = path.as_str();
        while let Some((name, behind)) = cut_at_slash(rest) {
            way.push_str(name)?;
            self.read_once(host, way.as_str(), looked)?;
            way = self.onward(way)?;
            rest = behind;
        }
        Ok(())
    }
}
