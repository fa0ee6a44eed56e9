//! Laws about instructions whose parts are mapped, and about renaming. Each is the contract of a function
//! that does nothing; the proofs go by the definitions alone.
#![tactic(auto)]

ghost use Rattle.laws_renaming.specs.Laws.{ChangesNothing, GoesInSteps, MapsLabels, MapsFollowing, MapsDeclared, MapsScope, KeepsKind, MayStand, MentionsItsOwn, HasItsLiterals, StaysAnchor, StaysShort, MapsExits, KeepsValues, RowsAlike, RowsBefore, RowsBehind, ScopesBehind, Renames};

/// To map each part of an instruction to itself changes nothing.
pub fn by_same()
    ensures { ChangesNothing }
{}

/// To map the parts and then to map them again is to map them by both at once.
pub fn by_both()
    ensures { GoesInSteps }
{}

/// The labels to which a mapped instruction jumps are those of the instruction, mapped.
pub fn labels()
    ensures { MapsLabels }
{}

/// The labels that may follow a mapped instruction are those that may follow the instruction, mapped.
pub fn following()
    ensures { MapsFollowing }
{}

/// The variables that a mapped instruction declares are those that the instruction declares, mapped.
pub fn declared()
    ensures { MapsDeclared }
{}

/// In a scope that is made out of another, so is the scope after a mapped instruction.
pub fn scope()
    ensures { MapsScope }
{}

/// A mapped instruction is a terminator, or a call or a return, exactly if the instruction is.
pub fn kind()
    ensures { KeepsKind }
{}

/// A mapped instruction may stand in a scope, if the instruction may in another and what is in scope is kept.
pub fn stands()
    ensures { MayStand }
{}

/// A mapped instruction mentions variables of a body, if the instruction does and the mapping keeps that.
pub fn mentions()
    ensures { MentionsItsOwn }
{}

/// The literals of a mapped instruction are those of a program, if the mapping keeps that of all literals.
pub fn literals()
    ensures { HasItsLiterals }
{}

/// The instruction of an anchor stays one, if the mapping keeps tests of equality and operands.
pub fn anchor()
    ensures { StaysAnchor }
{}

/// A mapped instruction stays within the limits, if the mapping keeps those of an assume.
pub fn short()
    ensures { StaysShort }
{}

/// The values in the maps of a mapped exit are mapped, and so are the frames that it may make.
pub fn exits()
    ensures { MapsExits }
{}

/// Mapped expressions have the values in one row that they had in another, if operands have.
pub fn values()
    ensures { KeepsValues }
{}

/// What mentions only variables that have the same values in two rows has the same value in both.
pub fn rows_alike()
    ensures { RowsAlike }
{}

/// The variables of a row have the same values if another row comes after it, and are set there.
pub fn rows_before()
    ensures { RowsBefore }
{}

/// The variables of a row that comes after another have the same values once they are moved, and are set there.
pub fn rows_behind()
    ensures { RowsBehind }
{}

/// The variables of a scope that comes after another are in scope if they were, once they are moved.
pub fn scopes_behind()
    ensures { ScopesBehind }
{}

/// A renaming keeps literals, anchors and limits, and what is in scope if that is renamed to what is.
pub fn renames()
    ensures { Renames }
{}
