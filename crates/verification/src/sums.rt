// The digests that a package gave for its files.
ghost use Rattle.std.specs.Prelude.{◌≡◌, ◌∷◌, [], List, true, false, take, IfOk, OnOk, OnErr, IfSome, MatchOption, is_some, option_map};
ghost use Rattle.hex.specs.Hex.{encode_lower};
ghost use Rattle.host_core.specs.Looks.{Looks};
ghost use Rattle.host_core.specs.Paths.{Path};
ghost use Rattle.host_overlay.specs.Seen.{seen};
ghost use Rattle.texts.specs.PackageNames.{is_package_name};
ghost use Rattle.conffiles.specs.Digests.{is_digest_text};
ghost use Rattle.diversions.specs.Lines.{lines_in};
ghost use Rattle.verification.specs.Sums.{is_sum, sum_in, sums_at, sums_path};
ghost use Rattle.verification.specs.Tables.{AreSums, IsSumOf, first_of, given};
ghost use Rattle.verification.specs.declared.sums.Sum.{Sum as ASum};

use conffiles::Digest;
use diversions::cut_line;
use host_core::{Host, HostFault, Node, RootPath};
use host_overlay::SeenNames;
use name_tables::{NameTable, Named, find};
use std::alloc::{AllocError, Global};
use std::marker::Model;
use std::str;
use texts::Text;

// The digest of one path.
#[derive(Drop)]
struct Sum {
    path: Text,
    digest: Digest,
}

impl Named for Sum {
    ghost called = { λ s. s.path };

    fn name(&self) -> &Text {
        &self.path
    }
}

/// The digests that a package gave, by their paths.
#[derive(Drop)]
pub(crate) struct Sums {
    items: NameTable<Sum>,
}

impl Model for Sums {
    ghost Value = { List ASum };

    ghost view = { λ s. s.items };
}

fn digest_of(digits: &[u8]) -> Option<Digest>
    ensures exact { is_some result ≡ is_digest_text digits.now }
    ensures value { IfSome result (λ digest. encode_lower digest ≡ digits.now) }
{
    match str::from_utf8(digits) {
        Ok(digits) => Digest::parse(digits),
        Err(_) => None,
    }
}

// What a line says, if it gives a digest.
fn sum_of(alloc: Global, line: &[u8]) -> Result<Option<Sum>, AllocError>
    ensures { IfOk result
        (λ o. MatchOption o (is_sum line.now ≡ false) (λ sum. IsSumOf line.now sum)) }
{
    if line.len() < 34 || &line[32..34] != b"  ".as_slice() {
        return Ok(None);
    }
    let Some(digest) = digest_of(&line[..32]) else {
        return Ok(None);
    };
    let Ok(path) = str::from_utf8(&line[34..]) else {
        return Ok(None);
    };
    let path = Text::new(format!(in alloc; "/{path}")?);
    Ok(Some(Sum { path, digest }))
}

impl Sums {
    fn new(alloc: Global) -> Sums
        ensures { result ≡ [] }
    {
        Sums {
            items: NameTable::new(alloc),
        }
    }

    // Adds one, where none of its path stands yet.
    fn add(&mut self, sum: Sum) -> Result<(), AllocError>
        ensures { OnOk result ((path : Path) → given self.new path
            ≡ first_of (given self.old path) (given (sum ∷ []) path)) }
    {
        if self.items.get(&sum.path).is_some() {
            return Ok(());
        }
        self.items.put(sum)?;
        Ok(())
    }

    // Adds what a line says.
    fn take_line(&mut self, alloc: Global, line: &[u8]) -> Result<(), AllocError>
        ensures { OnOk result ((path : Path) → given self.new path
            ≡ first_of (given self.old path) (sum_in (line.now ∷ []) path)) }
    {
        let Some(sum) = sum_of(alloc, line)? else {
            return Ok(());
        };
        self.add(sum)
    }

    // Those of a text.
    fn of_text(alloc: Global, text: &[u8]) -> Result<Sums, AllocError>
        ensures { IfOk result (AreSums (lines_in text.now)) }
    {
        let mut sums = Sums::new(alloc);
        let mut rest = text;
        while !rest.is_empty() {
            let (line, after) = cut_line(rest);
            sums.take_line(alloc, line)?;
            rest = after;
        }
        Ok(sums)
    }

    /// The digest that the package gave for a path.
    pub(crate) fn digest_of(&self, path: &RootPath) -> Option<Digest>
        ensures { option_map encode_lower result ≡ given self.now path.now }
    {
        self.items.law();
        let sums = self.items.as_slice();
        let at = find(sums, path.as_str().as_bytes())?;
        Some(sums[at].digest)
    }
}

// Those of what stands at their place.
fn sums_at(alloc: Global, node: &Option<Node>) -> Result<Sums, AllocError>
    ensures { IfOk result (AreSums (sums_at node.now)) }
{
    match node {
        Some(Node::File { bytes, .. }) => Sums::of_text(alloc, bytes.held()?),
        Some(Node::Dir { .. }) => Ok(Sums::new(alloc)),
        Some(Node::Link { .. }) => Ok(Sums::new(alloc)),
        None => Ok(Sums::new(alloc)),
    }
}

fn sums_path(alloc: Global, name: &Text) -> Result<RootPath, AllocError>
    requires { is_package_name name.now ≡ true }
    ensures { IfOk result (λ path. path ≡ sums_path name.now) }
{
    let name = name.as_str();
    Ok(RootPath::new(format!(in alloc; "/var/lib/dpkg/info/{name}.md5sums")?))
}

/// The digests that a package gave for its files; none where it gave no file of them.
pub(crate) fn read_sums<H: Host>(
    alloc: Global,
    host: &mut H,
    shown: &SeenNames,
    name: &Text,
) -> Result<Sums, HostFault>
    requires { is_package_name name.now ≡ true }
    ensures looks { Looks result (λ sums w. AreSums (sums_at (seen shown.now w (sums_path name.now))) sums)
        (H.state host.old) (H.state host.new) }
{
    let path = sums_path(alloc, name)?;
    let node = shown.node(host, &path)?;
    Ok(sums_at(alloc, &node)?)
}
