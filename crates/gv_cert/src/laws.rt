//! That bytes tell what was written, which claims can be written, and what becomes of backed records of the first version.

ghost use Rattle.std.specs.Prelude.{◌≡◌, ◌↔◌, ℕ, List, Option};
ghost use Rattle.std.specs.List.{AllByRecursion};
ghost use Rattle.gv_logic.specs.Circuits.{Circuit, IsCircuit};
ghost use Rattle.gv_logic.specs.Encoding.{clause_count};
ghost use Rattle.gv_cert.specs.Backing.{Backs, FindsBacked, FindsBackedIn};
ghost use Rattle.gv_cert.specs.Claim.{claim_bytes, log_of, AreNamed, IsAnswer};
ghost use Rattle.gv_cert.specs.File.{file_bytes, IsRecord, ReadsFile};
ghost use Rattle.gv_cert.specs.Known.{KnownRecord};
ghost use Rattle.gv_cert.specs.Migration.{AreTurned};
ghost use Rattle.gv_cert.specs.Short.{ShortLaw};
ghost use Rattle.gv_cert.specs.declared.claim.Claim.{Claim};
ghost use Rattle.gv_cert.specs.declared.version.FileVersion.TheVariants.{First};

use gv_logic::circuit_law;

/// The file law. A file has one list of records. That of the file that is written of records is these records.
pub fn file_law()
    ensures one { (bytes : List ℕ) (known other : List KnownRecord) → ReadsFile bytes known → ReadsFile bytes other → other ≡ known }
    ensures back { (known : List KnownRecord) → AllByRecursion IsRecord known → ReadsFile (file_bytes known) known }
{
    circuit_law();
}

/// The answer law. Bytes are those of at most one answer about gates with so many inputs and clauses.
pub fn answer_law()
    ensures { (inputs clauses : ℕ) (claim other : Claim) → IsAnswer inputs clauses claim → IsAnswer inputs clauses other
        → claim_bytes clauses other ≡ claim_bytes clauses claim → other ≡ claim }
{}

/// The short-number law. The bytes of a short number are the one list of one to five bytes of which each but the last is 128
/// or more, the last is less and isn't 0 unless it is the only one, and whose seven bits each, the least significant first,
/// are the number.
pub fn short_law()
    ensures { ShortLaw }
{}

/// The naming law. Each hint of a claim that is backed names a clause of the gates or an earlier step, so that the claim can
/// be written; and so does each hint of an answer that was read.
pub fn naming_law()
    ensures backed { (g : Circuit) (claim : Claim) → Backs g claim → AreNamed (clause_count g) (log_of claim) }
    ensures read { (inputs clauses : ℕ) (claim : Claim) → IsAnswer inputs clauses claim → AreNamed clauses (log_of claim) }
{}

/// The migration law. Where records of the first version were turned into the second, the first of these that is backed for
/// gates has the claim of the first of those that is, and none is where none is.
pub fn migration_law()
    ensures { (g : Circuit) (old new : List KnownRecord) (claim : Option Claim) → IsCircuit g → AreTurned old new
        → (FindsBacked g new claim ↔ FindsBackedIn First g old claim) }
{
    circuit_law();
}
