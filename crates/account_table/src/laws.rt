//! Laws of what changes in an account table, over its definitions. A function does nothing, and its clauses are the
//! laws.

ghost use Rattle.std.specs.Prelude.{ℕ, ◌≡◌, ◌++◌, IsTrue, false, List, [], Ok, option_map, slice_get};
ghost use Rattle.std.specs.List.{AllByRecursion};
ghost use Rattle.account_table.specs.AccountTable.{AccountTable, has_distinct_names};
ghost use Rattle.account_table.specs.Changes.{with_count, with_bad_count, with_changes, state_by, state_of, without_state, DifferInCounts, DifferInStates};
ghost use Rattle.account_table.specs.declared.changes.TableChange.{TableChange as OneChange};
ghost use Rattle.account_table.specs.Secrets.{IsFresh, IsSettingOf, Setting, apply_secrets, secrets_of, with_settings};
ghost use Rattle.account_table.specs.IsTable.{IsTableText};
ghost use Rattle.account_table.specs.LookUps.{place_in, machine_in, knows_in, route_in};

/// Setting a count of bad passwords leaves all else; tables that differ from one in counts alone do so from one
/// another; and where counts alone differ, names are found at the same places, computers' accounts too, domains have
/// the same routes, and the account at a place is the same but for its count.
pub fn what_counts_leave()
    ensures sets { (place count : ℕ) (table : AccountTable) →
        DifferInCounts table (with_bad_count place count table) }
    ensures none { (table : AccountTable) → DifferInCounts table table }
    ensures again { (old mid new : AccountTable) → DifferInCounts old mid →
        DifferInCounts mid new → DifferInCounts old new }
    ensures places { (old new : AccountTable) → DifferInCounts old new → (name : List ℕ) →
        place_in new.accounts name ≡ place_in old.accounts name }
    ensures machines { (old new : AccountTable) → DifferInCounts old new →
        (name : List ℕ) (channel : ℕ) (computer : List ℕ) →
        machine_in new.accounts name channel computer
        ≡ machine_in old.accounts name channel computer }
    ensures known { (old new : AccountTable) → DifferInCounts old new → (computer : List ℕ) →
        knows_in new.accounts computer ≡ knows_in old.accounts computer }
    ensures routes { (old new : AccountTable) → DifferInCounts old new → (domain : List ℕ) →
        route_in new domain ≡ route_in old domain }
    ensures accounts { (old new : AccountTable) → DifferInCounts old new → (place : ℕ) →
        option_map (with_count 0) (slice_get new.accounts place)
        ≡ option_map (with_count 0) (slice_get old.accounts place) }
{}

/// Changes are made one after the other: none change nothing, and those of two lists are made in their order. They
/// leave all but the counts of bad passwords and the hashes that they set, and the account at a place has what they
/// give it. Tables that differ so from one do so from one another: names are found at the same places, computers'
/// accounts too, domains have the same routes, and the account at a place is the same but for these.
pub fn what_changes_leave()
    ensures none { (table : AccountTable) → with_changes [] table ≡ table }
    ensures joined { (before after : List OneChange) (table : AccountTable) →
        with_changes (before ++ after) table ≡ with_changes after (with_changes before table) }
    ensures differ { (changes : List OneChange) (table : AccountTable) →
        DifferInStates table (with_changes changes table) }
    ensures again { (old mid new : AccountTable) → DifferInStates old mid →
        DifferInStates mid new → DifferInStates old new }
    ensures counts { (old new : AccountTable) → DifferInCounts old new → DifferInStates old new }
    ensures states { (changes : List OneChange) (table : AccountTable) (place : ℕ) →
        option_map state_of (slice_get (with_changes changes table).accounts place)
        ≡ option_map (λ account. state_by changes place (state_of account))
        (slice_get table.accounts place) }
    ensures places { (old new : AccountTable) → DifferInStates old new → (name : List ℕ) →
        place_in new.accounts name ≡ place_in old.accounts name }
    ensures machines { (old new : AccountTable) → DifferInStates old new →
        (name : List ℕ) (channel : ℕ) (computer : List ℕ) →
        machine_in new.accounts name channel computer
        ≡ machine_in old.accounts name channel computer }
    ensures known { (old new : AccountTable) → DifferInStates old new → (computer : List ℕ) →
        knows_in new.accounts computer ≡ knows_in old.accounts computer }
    ensures routes { (old new : AccountTable) → DifferInStates old new → (domain : List ℕ) →
        route_in new domain ≡ route_in old domain }
    ensures accounts { (old new : AccountTable) → DifferInStates old new → (place : ℕ) →
        option_map without_state (slice_get new.accounts place)
        ≡ option_map without_state (slice_get old.accounts place) }
{}

/// In a table that is read no hash was set. The text of secrets sets in such a table what was set in it since: whatever
/// hashes its computers and trusts were given, and whatever counts of bad passwords it has by then.
pub fn what_secrets_keep()
    ensures unset { (text : List ℕ) (table : AccountTable) → IsTableText text table →
        AllByRecursion (λ account. account.changed ≡ false) table.accounts }
    ensures again { (table new : AccountTable) (settings : List Setting) →
        IsTrue (has_distinct_names table.accounts) → AllByRecursion IsFresh table.accounts →
        AllByRecursion (IsSettingOf table.accounts) settings →
        DifferInCounts (record table { accounts = with_settings settings table.accounts }) new →
        apply_secrets table (secrets_of new.accounts)
        ≡ Ok (record table { accounts = with_settings settings table.accounts }) }
{}
