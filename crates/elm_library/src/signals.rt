//! Notes, signals, devices and Elements.

/// `Debug`.
pub const DEBUG: &str = "native watch : String -> a -> a
native log : String -> a -> a
native crash : String -> a

module Debug where

watchSummary : String -> (a -> b) -> a -> a
watchSummary tag f v = let seen = watch tag (f v) in v
";

/// `Signal`.
pub const SIGNAL: &str = "opaque Signal a
native constant : a -> Signal a
native map : (a -> b) -> Signal a -> Signal b
native map2 : (a -> b -> c) -> Signal a -> Signal b -> Signal c
native map3 : (a -> b -> c -> d) -> Signal a -> Signal b -> Signal c -> Signal d
native map4 : (a -> b -> c -> d -> e) -> Signal a -> Signal b -> Signal c -> Signal d -> Signal e
native map5 : (a -> b -> c -> d -> e -> f) -> Signal a -> Signal b -> Signal c -> Signal d -> Signal e -> Signal f
native foldp : (a -> state -> state) -> state -> Signal a -> Signal state
native merge : Signal a -> Signal a -> Signal a
native filter : (a -> Bool) -> a -> Signal a -> Signal a
native filterMap : (a -> Maybe b) -> b -> Signal a -> Signal b
native dropRepeats : Signal a -> Signal a
native sampleOn : Signal a -> Signal b -> Signal b
native async : Signal a -> Signal a

module Signal where

(<~) f s = map f s
(~) fs s = map2 (<|) fs s
";

/// `Mouse`.
pub const MOUSE: &str = "device position : Signal (Int, Int)
device isDown : Signal Bool
device clicks : Signal ()

module Mouse where

x = Signal.map fst position
y = Signal.map snd position
";

/// `Keyboard`.
pub const KEYBOARD: &str = "device arrows : Signal { x : Int, y : Int }

module Keyboard where
";

/// `Window`.
pub const WINDOW: &str = "device dimensions : Signal (Int, Int)

module Window where

width = Signal.map fst dimensions
height = Signal.map snd dimensions
";

/// `Graphics.Element`.
pub const ELEMENT: &str = "opaque Element
opaque Direction
opaque Position
native text : String -> Element
native empty : Element
native spacer : Int -> Int -> Element
native flow : Direction -> List Element -> Element
native up : Direction
native down : Direction
native left : Direction
native right : Direction
native topLeft : Position
native middle : Position
native bottomRight : Position
native container : Int -> Int -> Position -> Element -> Element
native widthOf : Element -> Int
native heightOf : Element -> Int

module Graphics.Element where

show v = text (toString v)
above a b = flow down [a, b]
beside a b = flow right [a, b]
";
