//! The laws of scenes.
ghost use Rattle.std.specs.Prelude.{◌≡◌, ◌≢◌, ◌≤◌, ◌+◌, ◌++◌, ◌&&◌, ◌||◌, ℕ, true, false, not, if◌then◌else◌, All, List, [], ◌∷◌, length, insert, None, Some};
ghost use Rattle.std.specs.Option.{option_map};
ghost use Rattle.fx_base.specs.declared.keys.NodeKey.{NodeKey as Key};
ghost use Rattle.fx_tree.specs.Scene as tree;
ghost use Rattle.fx_tree.specs.Refusals.{attach_refusal, drop_refusal, make_refusal, root_refusal};
ghost use Rattle.fx_events.specs.declared.kinds.EventKind.{EventKind as Kind};
ghost use Rattle.fx_events.specs.Routes.{is_of_one_node, route_of};
ghost use Rattle.fx_tree_laws.specs.Ways.{AreSteps};

/// The subtree of a living node holds just the living nodes that are the node itself or stand below it, however deep.
pub fn subtrees_are_what_is_within()
    ensures { (scene : tree.Scene) → tree.IsSound scene → (top key : Key) → tree.is_alive scene.nodes top ≡ true
        → tree.has (tree.subtree scene.nodes top) key
        ≡ (tree.is_alive scene.nodes key && tree.is_within scene.nodes top key) }
{}

/// After a node is made it lives too, without parent and children, and all else of each node is as before.
pub fn what_making_leaves()
    ensures alive { (scene : tree.Scene) (new : Key) → tree.IsSound scene → new.birth ≡ scene.born + 1 → (key : Key)
        → tree.is_alive (tree.after_make scene new).nodes key
        ≡ (tree.is_alive scene.nodes key || tree.is_same key new) }
    ensures parent { (scene : tree.Scene) (new key : Key)
        → tree.parent_of (tree.after_make scene new).nodes key ≡ tree.parent_of scene.nodes key }
    ensures children { (scene : tree.Scene) (new : Key) → tree.IsSound scene → new.birth ≡ scene.born + 1 → (key : Key)
        → tree.children_of (tree.after_make scene new).nodes key
        ≡ (if tree.is_same key new then Some [] else tree.children_of scene.nodes key) }
    ensures path { (scene : tree.Scene) (new key : Key)
        → tree.path (tree.after_make scene new).nodes key ≡ tree.path scene.nodes key }
{}

/// After a child is attached the same nodes live. The child has the parent and stands at its place among the parent's
/// children; the path to each node of its subtree begins with the path to the parent. All else is as before.
pub fn what_attaching_leaves()
    ensures alive { (scene : tree.Scene) (parent child : Key) (place : ℕ) (key : Key)
        → tree.is_alive (tree.after_attach scene parent child place).nodes key ≡ tree.is_alive scene.nodes key }
    ensures parent { (scene : tree.Scene) (parent child : Key) (place : ℕ) → tree.IsSound scene
        → attach_refusal scene parent child place ≡ None → (key : Key)
        → tree.parent_of (tree.after_attach scene parent child place).nodes key
        ≡ (if tree.is_same key child then Some parent else tree.parent_of scene.nodes key) }
    ensures children { (scene : tree.Scene) (parent child : Key) (place : ℕ) (key : Key)
        → tree.children_of (tree.after_attach scene parent child place).nodes key
        ≡ option_map (λ (keys : List Key). if tree.is_same key parent then insert keys place child else keys)
        (tree.children_of scene.nodes key) }
    ensures path { (scene : tree.Scene) (parent child : Key) (place : ℕ) → tree.IsSound scene
        → attach_refusal scene parent child place ≡ None → (key : Key)
        → tree.path (tree.after_attach scene parent child place).nodes key
        ≡ (if tree.is_within scene.nodes child key then tree.path scene.nodes parent ++ tree.path scene.nodes key
        else tree.path scene.nodes key) }
{}

/// After a child is detached the same nodes live. The child has no parent and is among no node's children; the path to
/// each node of its subtree lacks the path to the parent that it had. All else is as before.
pub fn what_detaching_leaves()
    ensures alive { (scene : tree.Scene) (child key : Key)
        → tree.is_alive (tree.after_detach scene child).nodes key ≡ tree.is_alive scene.nodes key }
    ensures parent { (scene : tree.Scene) (child key : Key)
        → tree.parent_of (tree.after_detach scene child).nodes key
        ≡ (if tree.is_same key child then None else tree.parent_of scene.nodes key) }
    ensures children { (scene : tree.Scene) (child key : Key)
        → tree.children_of (tree.after_detach scene child).nodes key
        ≡ option_map (tree.without child) (tree.children_of scene.nodes key) }
    ensures path_within { (scene : tree.Scene) (parent child : Key) → tree.IsSound scene
        → tree.parent_of scene.nodes child ≡ Some parent → (key : Key) → tree.is_within scene.nodes child key ≡ true
        → tree.path scene.nodes key
        ≡ tree.path scene.nodes parent ++ tree.path (tree.after_detach scene child).nodes key }
    ensures path_outside { (scene : tree.Scene) (child : Key) → tree.IsSound scene → (key : Key)
        → tree.is_within scene.nodes child key ≡ false
        → tree.path (tree.after_detach scene child).nodes key ≡ tree.path scene.nodes key }
{}

/// After a node without parent is dropped just those live that lived and don't stand within it, so just those die that
/// its subtree listed. Of each that lives, parent, children and path are as before.
pub fn what_dropping_leaves()
    ensures alive { (scene : tree.Scene) (top key : Key)
        → tree.is_alive (tree.after_drop scene top).nodes key
        ≡ (tree.is_alive scene.nodes key && not (tree.is_within scene.nodes top key)) }
    ensures listed { (scene : tree.Scene) (top : Key) → tree.IsSound scene → (key : Key)
        → tree.is_alive (tree.after_drop scene top).nodes key
        ≡ (tree.is_alive scene.nodes key && not (tree.has (tree.subtree scene.nodes top) key)) }
    ensures parent { (scene : tree.Scene) (top : Key) → tree.IsSound scene → drop_refusal scene top ≡ None → (key : Key)
        → tree.parent_of (tree.after_drop scene top).nodes key
        ≡ (if tree.is_within scene.nodes top key then None else tree.parent_of scene.nodes key) }
    ensures children { (scene : tree.Scene) (top key : Key)
        → tree.children_of (tree.after_drop scene top).nodes key
        ≡ (if tree.is_within scene.nodes top key then None else tree.children_of scene.nodes key) }
    ensures path { (scene : tree.Scene) (top : Key) → tree.IsSound scene → drop_refusal scene top ≡ None → (key : Key)
        → tree.is_within scene.nodes top key ≡ false
        → tree.path (tree.after_drop scene top).nodes key ≡ tree.path scene.nodes key }
{}

/// A change that isn't refused leaves a sound scene; a node is made in a slot that no living node has.
pub fn changes_keep_scenes_sound()
    ensures made { (scene : tree.Scene) (new : Key) → tree.IsSound scene → new.birth ≡ scene.born + 1
        → make_refusal scene ≡ None → All (λ (node : tree.Node). node.key.slot ≢ new.slot) scene.nodes
        → tree.IsSound (tree.after_make scene new) }
    ensures rooted { (scene : tree.Scene) (key : Key) → tree.IsSound scene → root_refusal scene key ≡ None
        → tree.IsSound (tree.after_set_root scene key) }
    ensures attached { (scene : tree.Scene) (parent child : Key) (place : ℕ) → tree.IsSound scene
        → attach_refusal scene parent child place ≡ None → tree.IsSound (tree.after_attach scene parent child place) }
    ensures detached { (scene : tree.Scene) (child : Key) → tree.IsSound scene
        → tree.IsSound (tree.after_detach scene child) }
    ensures dropped { (scene : tree.Scene) (top : Key) → tree.IsSound scene → drop_refusal scene top ≡ None
        → tree.IsSound (tree.after_drop scene top) }
{}

/// The path to a node is the path to its parent and then the node; where it has no parent, the node alone.
pub fn paths_go_by_parents()
    ensures below { (scene : tree.Scene) → tree.IsSound scene → (key parent : Key)
        → tree.parent_of scene.nodes key ≡ Some parent
        → tree.path scene.nodes key ≡ tree.path scene.nodes parent ++ key ∷ [] }
    ensures top { (scene : tree.Scene) (key : Key) → tree.parent_of scene.nodes key ≡ None
        → tree.path scene.nodes key ≡ key ∷ [] }
{}

/// Two nodes have two paths.
pub fn paths_differ()
    ensures { (scene : tree.Scene) (one other : Key) → tree.path scene.nodes one ≡ tree.path scene.nodes other
        → one ≡ other }
{}

/// A route has at most 64 nodes.
pub fn routes_are_short()
    ensures { (scene : tree.Scene) (on : Kind) (target : Key) → length (route_of scene.nodes on target) ≤ 64 }
{}

/// The route of an event to a living target ends at it.
pub fn routes_end_at_their_targets()
    ensures { (scene : tree.Scene) (on : Kind) (target : Key) → tree.is_alive scene.nodes target ≡ true
        → (above : List Key) × (route_of scene.nodes on target ≡ above ++ target ∷ []) }
{}

/// Each node of a route is the parent of the next one.
pub fn routes_step_down()
    ensures { (scene : tree.Scene) → tree.IsSound scene → (on : Kind) (target : Key)
        → AreSteps scene.nodes (route_of scene.nodes on target) }
{}

/// A route begins at a node without parent, which is the root where the target stands within the root; but that of an
/// entered or exited event is its target alone.
pub fn routes_begin_at_the_top()
    ensures top { (scene : tree.Scene) → tree.IsSound scene → (on : Kind) (target : Key)
        → tree.is_alive scene.nodes target ≡ true → is_of_one_node on ≡ false
        → (first : Key) × (rest : List Key) × (route_of scene.nodes on target ≡ first ∷ rest)
        × (tree.parent_of scene.nodes first ≡ None) }
    ensures root { (scene : tree.Scene) → tree.IsSound scene → (on : Kind) (target root : Key)
        → is_of_one_node on ≡ false → scene.root ≡ Some root → tree.is_within scene.nodes root target ≡ true
        → (rest : List Key) × (route_of scene.nodes on target ≡ root ∷ rest) }
{}
