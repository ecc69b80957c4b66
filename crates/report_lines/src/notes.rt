// Notes that are left behind a command.
ghost use Rattle.std.specs.Prelude.{◌≡◌};
ghost use Rattle.report_lines.specs.Notes.{notes_line};

use host_core::HostFault;

/// Tells that notes are left in their directory, and why they weren't merged.
pub fn notes_line(fault: HostFault) -> &'static str
    ensures { result.now ≡ notes_line fault }
{
    match fault {
        HostFault::Device => "notes left: /var/lib/dpkg/updates: device\n",
        HostFault::NoMemory => "notes left: /var/lib/dpkg/updates: memory\n",
        HostFault::Declined => "notes left: /var/lib/dpkg/updates: declined\n",
    }
}
