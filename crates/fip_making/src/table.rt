//! The table of contents of a package, from a file or from the source, or of a capsule.
ghost use Rattle.std.specs.Prelude.{◌≡◌, ◌≤◌, ◌<◌, ◌+◌, ◌^◌, ◌∷◌, [], All, IfOk, List, Some, Ok, Err, length, ℕ, ◌++◌};
ghost use Rattle.std.specs.Io.KnownBytes.{Consumes, IsAtEnd};
ghost use Rattle.base_core.specs.Counts.{Rose};
ghost use Rattle.fwu_formats.specs.Package.{toc_of};
ghost use Rattle.fip_tables.specs.Answers.{decided};
ghost use Rattle.capsule_tables.specs.Answers.{IsSomeTable};
ghost use Rattle.fip_tables.specs.Stream.{Fed};
ghost use Rattle.fip_making.specs.Stops.{IsOfCapsule, IsPackageStop, IsOfSource, Unstarved, IsLate};
ghost use Rattle.fip_making.specs.Answers.{AsTold, FedSome, GivenToIn, ReadsGiven, ReadsOne, AsksNothing, Gives};
ghost use Rattle.fip_making.specs.Values.{StopsInTime, and_then, capsule_in, given_table, size_in, sized_table, source_limit, IsTableOfSome};
ghost use Rattle.fip_making.specs.declared.stops.Stop.TheVariants as stop;

use crate::stops::Stop;
use capsule_tables::read_capsule;
use fip_tables::{StreamToc, Toc, read_toc};
use host_io::{Files, Source};

// The most bytes that are read of the source.
const SOURCE_LIMIT: u64 = 4_294_967_296;

/// How many bytes a file has.
#[tactic(auto, unfolding(crate::specs::Values::size_in))]
pub fn size_of<H: Files>(files: &mut H, name: &str) -> Result<u64, Stop>
    ensures told { AsTold H.Files (λ told n. n) (λ told. size_in told name.now) files.old files.new result }
    ensures reads { ReadsOne H.Files name.now (Unstarved IsLate) files.old files.new result }
{
    match files.size(name)? {
        Some(size) => Ok(size),
        None => Err(Stop::FileFault),
    }
}

/// The table of a package in a file, and how many bytes the file has.
pub fn read_package<H: Files>(files: &mut H, name: &str) -> Result<(Toc, u64), Stop>
    ensures told { AsTold H.Files (λ told t. t) (λ told. sized_table told name.now) files.old files.new result }
    ensures ends { IfOk result (λ t. All (λ e. e.offset + e.size < 2 ^ 64) t.0.entries) }
    ensures table { IfOk result (λ t. IsTableOfSome t.0) }
    ensures reads { ReadsOne H.Files name.now (Unstarved IsPackageStop) files.old files.new result }
{
    let size = size_of(files, name)?;
    let toc = read_toc(files, name)?;
    Ok((toc, size))
}

/// The table of a capsule in a file.
pub fn read_enclosed<H: Files>(files: &mut H, name: &str) -> Result<Toc, Stop>
    ensures told { AsTold H.Files (λ told t. t) (λ told. and_then (capsule_in told name.now) (λ p. Ok p.1))
        files.old files.new result }
    ensures table { IfOk result IsSomeTable }
    ensures reads { ReadsOne H.Files name.now (Unstarved IsOfCapsule) files.old files.new result }
{
    Ok(read_capsule(files, name)?)
}

// Feeds what one read of the source gives, and says how many bytes that is.
fn feed_some<I: Source>(source: &mut I, stream: &mut StreamToc) -> Result<usize, Stop>
    requires room { stream.old.count ≤ source_limit }
    ensures few { IfOk result (λ n. n ≤ 4096) }
    ensures fed { (given : List ℕ) → Fed stream.old given
        → (piece : List ℕ) × FedSome stream.new given piece (I.left source.old) (I.left source.new)
        (Rose (I.faults source.old) (I.faults source.new)) result }
    ensures made { IfOk result (λ n. I.reads source.old source.new (Some n ∷ [])) }
    ensures source { ReadsGiven I.Source source.old source.new result }
    ensures memory { result ≡ Err stop.NoMemory → ⊥ }
{
    let mut buffer = [0u8; 4096];
    let count = source.read(&mut buffer)?;
    match stream.feed(&buffer[..count]) {
        Ok(()) => Ok(count),
        Err(fault) => Err(Stop::NotFip(fault)),
    }
}

// The table of what the source gave, which was all.
fn ended(stream: StreamToc, count: u64) -> Result<(Toc, u64), Stop>
    requires few { count ≤ source_limit }
    ensures table { (given : List ℕ) → Fed stream given → length given ≡ count → decided (toc_of given) ≡ Ok tt
        → Gives (λ t. t) ⊥ (given_table given) result }
    ensures asks { AsksNothing (Unstarved IsOfSource) result }
{
    match stream.end() {
        Ok(toc) => Ok((toc, count)),
        Err(fault) => Err(Stop::NotFip(fault)),
    }
}

/// The table of a package that the source gives, and how many bytes it gave. It is read to its end, to a fault that no further
/// bytes mend, past the most bytes, or to a read that fails.
pub fn read_given<I: Source>(source: &mut I) -> Result<(Toc, u64), Stop>
    ensures given { (given : List ℕ) × StopsInTime given × GivenToIn I.Source (λ t. t) given_table
        source.old source.new result given }
    ensures source { ReadsGiven I.Source source.old source.new result }
    ensures memory { result ≡ Err stop.NoMemory → ⊥ }
{
    let mut stream = StreamToc::new();
    let mut count = 0;
    while count <= SOURCE_LIMIT {
        let some = feed_some(source, &mut stream)?;
        if some == 0 {
            return ended(stream, count);
        }
        count += some as u64;
    }
    Err(Stop::TooLong)
}
