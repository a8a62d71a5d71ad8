//! Laws of incoming routes, with nothing to run.

ghost use Rattle.std.specs.Prelude.{
  ◌≡◌,
  ◌↔◌,
  ◌++◌,
  ◌∷◌,
  List,
  [],
  None,
  IsTrue,
  map,
  if◌then◌else◌,
};
ghost use Rattle.std.specs.Map.{update_all};
ghost use Rattle.std.specs.Set.{is_member};
ghost use Rattle.bgp_update.specs.declared.destination.Destination.{Destination};
ghost use Rattle.bgp_rib.specs.DestinationOrder.{destination_eq};
ghost use Rattle.bgp_update.specs.DeclaredFamilies.{Families};
ghost use Rattle.bgp_update.specs.Families.{contains, union};
ghost use Rattle.bgp_update.specs.Changes.{RouteChanges};
ghost use Rattle.bgp_rib.specs.Routes.{
  Routes,
  AreRoutes,
  path_to,
  entry_of,
  entries_outside,
  no_routes,
  routes_after,
  routes_without,
};
ghost use Rattle.bgp_rib.specs.SameRoutes.{same_routes};
ghost use Rattle.bgp_rib.specs.Updates.{AppliedUpdate, after_updates};

/// Routes are a map. After changes a destination leads where the last route put to it does, unless
/// its family is disabled; else nowhere, where it was removed; else where it led before. Where
/// families are disabled theirs lead nowhere, and the others where they led.
pub fn each_change_is_the_maps()
    ensures changed { (changes : RouteChanges) (routes : Routes) (destination : Destination)
        → path_to (routes_after changes routes) destination
        ≡ update_all destination_eq
        (λ p. if is_member destination_eq changes.remove p then None else path_to routes p)
        (entries_outside routes.disabled (map entry_of changes.put)) destination }
    ensures disabled { (families : Families) (routes : Routes) (destination : Destination)
        → path_to (routes_without families routes) destination
        ≡ if contains families destination.prefix.family then None else path_to routes destination }
{}

/// Routes of which each destination leads to the same path, and of which the same families are
/// disabled, are one: the map and its order say all.
pub fn equal_maps_are_one()
    ensures { (routes others : Routes) → AreRoutes routes → AreRoutes others
        → ((destination : Destination) → path_to routes destination ≡ path_to others destination)
        → routes.disabled ≡ others.disabled → routes ≡ others }
{}

/// Whatever is done to routes, their destinations ascend, and none is of a disabled family.
pub fn changes_leave_routes()
    ensures none { AreRoutes no_routes }
    ensures changed { (changes : RouteChanges) (routes : Routes) → AreRoutes routes
        → AreRoutes (routes_after changes routes) }
    ensures disabled { (families : Families) (routes : Routes) → AreRoutes routes
        → AreRoutes (routes_without families routes) }
{}

/// One table serves all sets of disabled families: to change routes of which some families are
/// disabled, and then to disable others, gives what the full table gives after the change, seen
/// without the families of both sets.
pub fn disabled_families_are_left_out()
    ensures { (changes : RouteChanges) (families others : Families) (routes : Routes)
        → AreRoutes routes
        → routes_without others (routes_after changes (routes_without families routes))
        ≡ routes_without (union families others) (routes_after changes routes) }
{}

/// To apply UPDATEs and then others is to apply all of them in a row. None leave the routes as they
/// are; one leaves what its changes leave, without the families that it disables, and where it
/// disables none just what its changes leave.
pub fn updates_join()
    ensures joined { (updates others : List AppliedUpdate) (routes : Routes)
        → after_updates (updates ++ others) routes
        ≡ after_updates others (after_updates updates routes) }
    ensures none { (routes : Routes) → after_updates [] routes ≡ routes }
    ensures one { (update : AppliedUpdate) (routes : Routes)
        → after_updates (update ∷ []) routes
        ≡ routes_without update.disabled (routes_after update.changes routes) }
    ensures changes { (changes : RouteChanges) (routes : Routes)
        → after_updates
        (record { changes = changes; disabled = no_routes.disabled } ∷ []) routes
        ≡ routes_after changes routes }
{}

/// `==` is true exactly of equal routes with equal disabled families.
pub fn equality_is_real()
    ensures { (routes others : Routes)
        → IsTrue (same_routes routes others) ↔ (routes ≡ others) }
{}
