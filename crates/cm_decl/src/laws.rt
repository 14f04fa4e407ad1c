//! Laws of the definitions, and short declarations with their faults.
//!
//! These functions do nothing, and no code calls them: what each of them promises is a fact about the
//! definitions in `specs/`, which its proof shows.

ghost use Rattle.std.specs.Prelude.{◌≡◌, Some, None, [], ◌∷◌, Bool, true, false, List as Seq};
ghost use Rattle.cm_names.specs.declared.availability.Availability.TheVariants as availability;
ghost use Rattle.cm_names.specs.declared.dependency.Dependency.TheVariants as dependency;
ghost use Rattle.cm_decl.specs.declared.decl.Decl.{Decl as Declaration};
ghost use Rattle.cm_decl.specs.declared.node.Node.{Node as OneNode};
ghost use Rattle.cm_decl.specs.declared.node.DynChild.{DynChild as Dynamic};
ghost use Rattle.cm_decl.specs.declared.origin.Origin.TheVariants as origin;
ghost use Rattle.cm_decl.specs.declared.section.Section.TheVariants as section;
ghost use Rattle.cm_decl.specs.Clashes.{place};
ghost use Rattle.cm_decl.specs.Faults.{DeclFault};
ghost use Rattle.cm_decl.specs.Valid.{IsDeclFault, IsValid, cycle_fault};
ghost use Rattle.cm_decl.specs.Dynamic.{bad_give};
ghost use Rattle.cm_decl.specs.GraphInside.{IsTopologicalOrder, realm};
ghost use Rattle.cm_decl.specs.RealmGraph.{Directly};
ghost use Rattle.cm_decl.specs.Cycle.{IsPickedCycle};
ghost use Rattle.cm_decl.specs.Reach.{HasCycle, NoCycle};
ghost use Rattle.cm_decl.specs.Examples.{named_as_child, used_of_nobody, offered_undeclared, given_back};
ghost use Rattle.cm_decl.specs.Examples.{exposed_twice, used_twice, one_inside, exposed_from_void};
ghost use Rattle.cm_decl.specs.Examples.{twice_named, two_ways, child_node, give, from_child, row_fault, a};
ghost use Rattle.cm_decl.specs.Examples.{b, p, q};

/// A declaration has at most one fault, and a valid one has none.
pub fn faults_once()
    ensures once { (d : Declaration) (f g : DeclFault) → IsDeclFault d f → IsDeclFault d g → f ≡ g }
    ensures valid { (d : Declaration) (f : DeclFault) → IsValid d → IsDeclFault d f → ⊥ }
{}

/// A graph has at most one picked cycle, and where it has one, it has a cycle.
pub fn picks_once()
    ensures once { (edge : OneNode → OneNode → Bool) (c d : Seq OneNode)
        → IsPickedCycle edge c → IsPickedCycle edge d → c ≡ d }
    ensures cycle { (edge : OneNode → OneNode → Bool) (c : Seq OneNode)
        → IsPickedCycle edge c → HasCycle (λ x y. edge x y ≡ true) }
{}

/// A realm graph that has an order has no cycle.
pub fn orders_no_cycle()
    ensures { (d : Declaration) (dynamic : Seq Dynamic) (order : Seq OneNode)
        → IsTopologicalOrder (realm d dynamic) order → NoCycle (Directly (realm d dynamic)) }
{}

/// For each fault that a row can have, a declaration that has it: an undeclared name, a clash with an
/// earlier row and so on. Where two faults stand, the first is the declaration's.
pub fn has_each_fault()
    ensures repeated_name { IsDeclFault named_as_child
        (row_fault 50 section.Collections 0 (Some (place section.Children 1))) }
    ensures unknown_ref { IsDeclFault used_of_nobody (row_fault 51 section.Uses 0 None) }
    ensures not_declared { IsDeclFault offered_undeclared (row_fault 52 section.Offers 0 None) }
    ensures target_is_source { IsDeclFault given_back (row_fault 53 section.Offers 0 None) }
    ensures repeated_target { IsDeclFault exposed_twice
        (row_fault 54 section.Exposes 2 (Some (place section.Exposes 0))) }
    ensures repeated_path { IsDeclFault used_twice
        (row_fault 55 section.Uses 1 (Some (place section.Uses 0))) }
    ensures path_inside { IsDeclFault one_inside
        (row_fault 56 section.Uses 2 (Some (place section.Uses 0))) }
    ensures required_void { IsDeclFault exposed_from_void (row_fault 57 section.Exposes 1 None) }
    ensures first_of_two { IsDeclFault twice_named
        (row_fault 50 section.Children 2 (Some (place section.Children 0))) }
{}

/// Two children with strong offers of each other's: 58 with the cycle from the least node on.
pub fn goes_two_ways()
    ensures { IsDeclFault (two_ways dependency.Strong)
        (cycle_fault (child_node a ∷ child_node b ∷ child_node a ∷ [])) }
{}

/// With a weak offer back the declaration is valid.
pub fn goes_one_way()
    ensures { IsValid (two_ways dependency.Weak) }
{}

/// The first bad offer to a new child of a collection: an unknown child is 51, an undeclared
/// source 52, a target name that stands already 54, and what has to be there from void 57. A
/// child of a collection that is there may be a source.
pub fn finds_bad_gives()
    ensures unknown { bad_give given_back (λ c. false) b
        (give p (from_child b) dependency.Strong availability.Required ∷ []) ≡ Some (0, 51) }
    ensures undeclared { bad_give given_back (λ c. false) b
        (give q origin.Parent dependency.Strong availability.Required
        ∷ give p origin.Own dependency.Strong availability.Required ∷ []) ≡ Some (1, 52) }
    ensures repeated { bad_give given_back (λ c. false) b
        (give q origin.Parent dependency.Strong availability.Required
        ∷ give q origin.Parent dependency.Strong availability.Required ∷ []) ≡ Some (1, 54) }
    ensures offered { bad_give given_back (λ c. false) a
        (give p origin.Parent dependency.Strong availability.Required ∷ []) ≡ Some (0, 54) }
    ensures required { bad_give given_back (λ c. false) b
        (give q origin.Void dependency.Strong availability.Required ∷ []) ≡ Some (0, 57) }
    ensures as_target { bad_give given_back (λ c. false) b
        (give q origin.Void dependency.Strong availability.SameAsTarget ∷ []) ≡ Some (0, 57) }
    ensures transitional { bad_give given_back (λ c. false) b
        (give q origin.Void dependency.Strong availability.Transitional ∷ []) ≡ None }
    ensures there { bad_give given_back (λ c. true) b
        (give q (origin.Child (record { coll = Some b; name = a })) dependency.Strong
        availability.Required ∷ []) ≡ None }
{}
