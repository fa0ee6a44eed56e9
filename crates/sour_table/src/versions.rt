ghost use Rattle.std.specs.Prelude.{◌≡◌, ◌≢◌, ◌<◌, length, IfOk, OnOk, OnErr, IfSome, IfNone};
ghost use Rattle.sour_versions.specs.History.{read_of, number_of};
ghost use Rattle.sour_table.specs.Reader.{ReaderView, FollowsTable, counted, answered, IsOfProgram};

use sour_bundle::Entry;
use sour_syntax::FunId;
use std::alloc::AllocError;

/// What answers calls, and passes, by the active versions of the functions of a program: a table,
/// or one who reads a table to which others publish.
///
/// Whatever is called, its program and its table stay, what it has seen grows at its end, and its
/// count of reads doesn't fall.
pub trait Versions {
    ghost use Rattle.sour_table.specs.Reader.{ReaderView};

    // Its program, its table, what it has seen and how many reads were answered.
    ghost reader: { Self → ReaderView };

    /// The number and the active version of a function, as its table has them at some moment of
    /// this call. 0 is the number of the text version. It waits for nobody. Want of memory is its
    /// one refusal, and then it answered no read.
    fn enter(&mut self, function: FunId) -> Result<(u32, Entry), AllocError>
        requires { function.0 < length (reader self.old).program.functions }
        ensures read { IfOk result
            (λ answer. answered function answer ≡ read_of function (reader self.new).seen) }
        ensures own { IfOk result (λ answer. IsOfProgram (reader self.old).program answer.1) }
        ensures counted { OnOk result
            ((reader self.new).reads ≡ counted (reader self.old).reads) }
        ensures refused { OnErr result ((reader self.new).reads ≡ (reader self.old).reads) }
        ensures follows { FollowsTable (reader self.old) (reader self.new) };

    /// The same for one who has the version with this number: `None` says that this is the active
    /// one still, and touches nothing of it. It is a read like any other.
    fn enter_unless(
        &mut self,
        function: FunId,
        number: u32,
    ) -> Result<Option<(u32, Entry)>, AllocError>
        requires { function.0 < length (reader self.old).program.functions }
        ensures read { IfOk result (λ other. IfSome other
            (λ answer. answered function answer ≡ read_of function (reader self.new).seen)) }
        ensures own { IfOk result
            (λ other. IfSome other (λ answer. IsOfProgram (reader self.old).program answer.1)) }
        ensures same { IfOk result
            (λ other. IfNone other (number_of function (reader self.new).seen ≡ number)) }
        ensures differs { IfOk result (λ other. IfSome other (λ answer. answer.0 ≢ number)) }
        ensures counted { OnOk result
            ((reader self.new).reads ≡ counted (reader self.old).reads) }
        ensures refused { OnErr result ((reader self.new).reads ≡ (reader self.old).reads) }
        ensures follows { FollowsTable (reader self.old) (reader self.new) };
}
